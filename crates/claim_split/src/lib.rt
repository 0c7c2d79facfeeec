// Laws of changed blocks in linear quadtrees; this crate has no code.
#![tactic(auto)]

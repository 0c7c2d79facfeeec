// The definitions and the theory of linear quadtrees: no code.
#![tactic(auto)]

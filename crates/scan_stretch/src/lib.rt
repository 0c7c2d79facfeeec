// Laws of a stretch of a scan's places to which accounts are fed; no code.
#![tactic(auto)]

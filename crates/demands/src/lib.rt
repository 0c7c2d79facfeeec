// Demands 2 and 3, stated and proved over the definitions that the contracts of the calls cite: no code.
#![tactic(auto)]

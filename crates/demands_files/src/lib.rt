// The files that lists of calls write: stated in specs/ and proved in proofs/, no code.
#![tactic(auto)]

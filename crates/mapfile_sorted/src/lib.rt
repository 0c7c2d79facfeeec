// The roster by rising account, as writer and reader have it: stated in specs/ and proved in proofs/, no code.
#![tactic(auto)]

// The starred lines of document 01's "Worked beds", proved: no code.
#![tactic(auto)]

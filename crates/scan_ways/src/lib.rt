// Laws of bands of rows: where their blocks lie, and how long a list grows on the way through them; no code.
#![tactic(auto)]

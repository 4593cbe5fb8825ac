// A book right after a rename of all its names is one group: 02, P2, as a statement and a theorem. No code.

#![tactic(auto)]

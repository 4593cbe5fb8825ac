// What holds of a book that is renamed, edited and taken back: demand 3, as a statement and a theorem. No code.

#![tactic(auto)]

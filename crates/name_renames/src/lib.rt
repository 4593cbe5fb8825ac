// Renaming names and taking a rename back: definitions and theorems, and the cases of 01's table as a type. No function.
// Document 01, "Renaming one name" and "Taking it back".

#![tactic(auto)]

// The cases of 01's table "Name x | Becomes", in its order, those that say N(k) with their k.
#[derive(Clone, Copy, Debug, PartialEq, Eq)]
pub enum Case {
    // | below r0 and below N(0) | x |
    KeepBelow,
    // | below r0, otherwise | (p, A, s, −1)·x |
    PutBelow,
    // | equal to r(k) | N(k) |
    Logged(usize),
    // | between r(k) and r(k+1) | N(k)·x |: k is the index of the name before x, where algorithm 1 has findIndex(id, ..) of
    // an id that is not in the log and means appendix A's findIndexOfPred
    Between(usize),
    // | above r(n−1) and below N(n−1) | N(n−1)·x |, with k = n − 1
    PutAbove(usize),
    // | above r(n−1), otherwise | x |
    KeepAbove,
}

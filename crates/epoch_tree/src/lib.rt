// Epoch tables and the epoch tree: definitions and theorems, and the step as a type. No function.
// Document 01, "Pages, logs, epochs" and "Epoch tree".

#![tactic(auto)]

// "One question gives the next step from a current index: stay, up to the parent, or down to a child, given by index."
#[derive(Clone, Copy, Debug, PartialEq, Eq)]
pub enum Step {
    Stay,
    Up(usize),
    Down(usize),
}

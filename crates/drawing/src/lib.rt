// Runs of write cycles: the dots of a vector and of a character put into the picture, and where the pen stands after.
// Proved: exactly the dots of the closed forms, one cycle after the other. It knows no register.
// Assumes nothing.
#![tactic(auto)]

mod column;
mod inside;
pub mod letters;
pub mod strokes;
pub mod tip;

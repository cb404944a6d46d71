// The picture memory: one dot, the dot of a position, the whole picture.
// Proved: each call leaves exactly the picture that specs/ names. It knows no chip.
// Assumes nothing.
#![tactic(auto)]

pub mod dot;
pub mod run;
pub mod screen;

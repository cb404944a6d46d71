// The panel: a log of calls in, the answers and the screen's dots out, or the screen alone as a plain PBM file.
// Proved: for every input the bytes written are exactly those of specs/Panel or specs/Screen, the rest of the buffer stays, and its bound suffices.
// Assumes nothing.
#![tactic(auto)]

mod dots;
pub mod log;
mod output;
mod parse;
mod play;
mod run;
pub mod screen;

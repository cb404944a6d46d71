// The parts of the processor that need no register file: formats and their address lines, the command decoder,
// the refusals of all crates with their numbers and order.
// Proved: each function answers what specs/ says; no two positions share their address outputs. Assumes nothing.
#![tactic(auto)]

pub mod address;
pub mod command;
pub mod format;
pub mod refusal;

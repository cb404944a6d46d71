// The EF9365 and EF9366: a struct of sixteen bytes by value whose methods are the calls.
// Proved: each call gives, for every sixteen bytes and every lent memory, exactly what the definitions of crate rules give for the
// state that the bytes stand for, and its statement allows no other result. No call requires anything. Assumes nothing.
#![tactic(auto)]

pub mod address;
pub mod bits;
pub mod blanking;
mod check;
mod commands;
pub mod cycles;
pub mod fresh;
pub mod light_pen;
pub mod read;
pub mod state;
mod status;
pub mod write;

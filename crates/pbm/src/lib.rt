// The picture as plain PBM, Netpbm's P1: written into a lent buffer, and read back.
// Proved: each call gives, for every lent memory, exactly what specs/Calls names, and reading what was written gives the same
// picture. No call requires anything. Assumes nothing.
#![tactic(auto)]

pub mod answer;
mod head;
pub mod read;
mod signs;
mod white;
pub mod write;

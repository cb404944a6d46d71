// Bytes as text: a byte searched, a text cut and its lines, fields read as numbers, bytes and decimal numbers written into a lent buffer.
// Proved: each function answers or writes exactly what specs/ names. Crates above cite the laws of proofs/Laws.
// Assumes nothing.
#![tactic(auto)]

pub mod digits;
pub mod find;
pub mod number;
pub mod split;
pub mod write;

pub const TAB: u8 = 9;

pub const LINE_FEED: u8 = 10;

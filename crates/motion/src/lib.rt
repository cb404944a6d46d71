// How the pen moves: 12-bit positions, line types, vectors, characters and their glyphs.
// Proved: each step by additions stands where the closed forms of specs/ say. On plain numbers; it knows no register.
// Assumes nothing.
#![tactic(auto)]

pub mod character;
pub mod glyph;
pub mod line_type;
pub mod position;
pub mod vector;

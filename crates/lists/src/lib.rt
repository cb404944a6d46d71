#![tactic(auto)]

// Lists of writes and commands, drawn with the pen and taken away with the eraser.
// Proved: demand 3, over the calls' own definitions. No code: what stands here follows from the card's statements.
// Assumes nothing.

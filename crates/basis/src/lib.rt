#![tactic(auto)]

// What every other crate's proofs may lean on: case analysis, and tables whose rule is computed. No code.
// Proved: the laws of proofs/Cases and proofs/Table. Assumes nothing.

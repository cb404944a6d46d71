#![tactic(auto)]

// Document 01, with the clears of request b), as definitions: the state of the EF9365 and EF9366, and what each call does to it
// and to the lent memories. Proved of them: the tables of readings, that good states stay good, that cycles can be granted in
// any portions, that every dot written lies in the picture, when a clear ends, whatever is called meanwhile. No code.
// Assumes nothing.

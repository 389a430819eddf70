// Runs of stations of mode A, of one and of two on one circuit, and what is asked of a place and of a step: specs/Lib.antt and proofs/Lib.antt
// are the index. No code.
#![tactic(auto)]

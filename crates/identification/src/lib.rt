// Three-block calls and identification (02, T-05): theorems over runs of one station. specs/Lib.antt and proofs/Lib.antt are the index. No code.
#![tactic(auto)]

// Who are you (02, T-06; 001, 3.7.13): theorems over runs of one station. specs/Lib.antt and proofs/Lib.antt are the index. No code.
#![tactic(auto)]

// Who answered: two stations in a call of three blocks and identification (02, T-05; 001, 3.5 and 3.6). Theorems alone, no code: what the
// call leaves, that each side then knows the other's identity, and that nothing of it is printed.
#![tactic(auto)]

// The repetition count, Ending's four and Stand-by, told from the steps (01, The station): theorems over runs of one station. No code.
#![tactic(auto)]

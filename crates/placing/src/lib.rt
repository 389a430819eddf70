// Calls of one station, placed, failed, waited for and answered (02, T-02; 001, 3.5): theorems over runs of one station. No code.
#![tactic(auto)]

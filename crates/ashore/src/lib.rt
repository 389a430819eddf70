// Demand 3 of a record of damage (02, T-07): theorems about `passing::passage`, in specs/ and proofs/. No code.
#![tactic(auto)]

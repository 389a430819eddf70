// Theorems: what the help desk says and what the set does cannot disagree (02, T-08). No code.
#![tactic(auto)]

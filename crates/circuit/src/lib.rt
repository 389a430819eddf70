// Two stations of mode A on one circuit, fresh or after a call: specs/Demand.antt and proofs/. No code.
#![tactic(auto)]

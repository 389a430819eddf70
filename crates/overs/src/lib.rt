// When a station of mode A hears the over, told from the signals that it accepted: specs/Overs.antt and proofs/OverLaws.antt. No code.
#![tactic(auto)]

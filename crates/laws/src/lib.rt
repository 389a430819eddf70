// Laws that more than one crate cites, each stated once: specs/Lib.antt and proofs/Lib.antt are the index. No code.
#![tactic(auto)]

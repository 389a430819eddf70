// What a fresh receiver of mode B prints of one broadcast: the perfect copy (specs/Premise.antt, proofs/CopyLaws.antt) and no wrong
// signal under any damage that is never one of the 35 (specs/Reading.antt, proofs/ReadingLaws.antt). No code.
#![tactic(auto)]

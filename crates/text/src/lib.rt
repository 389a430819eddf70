// The text path's types (01, Text): what encoding and printing answer. The calls are `encoding::encode` and
// `printing::print`; what each answer means in 01's numbers is `specs/Encoding.antt` and `specs/Printing.antt`.
#![tactic(auto)]

use signals::Case;

// What both calls answer: how many signals or bytes were written, and the case after the last signal.
#[derive(Clone, Copy, PartialEq, Eq)]
pub struct Written {
    pub count: usize,
    pub ends: Case,
}

// What encoding refuses.
#[derive(Clone, Copy, PartialEq, Eq)]
pub enum EncodeError {
    // 5: over 4,096 characters.
    TooLong,
    // 1: a byte without a signal; the index of the first.
    NoSignal(usize),
    // 2: the room is too short; the room needed.
    NoRoom(usize),
}

// What printing refuses.
#[derive(Clone, Copy, PartialEq, Eq)]
pub enum PrintError {
    // 7: over 8,192 signals.
    TooLong,
    // 3: a word that is neither traffic nor the error mark; the index of the first.
    BadWord(usize),
    // 2: the room is too short; the room needed.
    NoRoom(usize),
}

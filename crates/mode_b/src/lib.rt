// Collective mode B (01, Mode B; 001, 4.2 to 4.6): what sender and receiver are made of. The calls are `sending::slot` and
// `receiving::receive`; their rules are `specs/Sender.antt` and `specs/Receiver.antt`.
#![tactic(auto)]

ghost use Rattle.std.specs.Prelude.{◌≡◌};
ghost use Rattle.mode_b.specs.Receiver.{fresh_receiver};

// The words of return and line feed.
pub const CARRIAGE_RETURN: u8 = 120;

pub const LINE_FEED: u8 = 108;

// Why the sender's call has no word for a slot.
#[derive(Clone, Copy, PartialEq, Eq)]
pub enum SlotError {
    // 7: over 8,192 signals.
    TooLong,
    // 3: a word that is not traffic; the index of the first.
    BadWord(usize),
    // 6: a slot past the last; the number of slots.
    PastLast(usize),
}

// A phasing signal: phasing signal 1 is α, phasing signal 2 is RQ.
#[derive(Clone, Copy, PartialEq, Eq)]
pub enum Phasing {
    One,
    Two,
}

// A receiver in phase: the DX words of three positions, the oldest first, whether the next slot is a DX slot, and whether printing has
// begun. The words are as they were heard, intact or not; as it comes into phase all three are RQ.
#[derive(Clone, Copy, PartialEq, Eq)]
pub struct Phase {
    pub first: u8,
    pub second: u8,
    pub third: u8,
    pub dx: bool,
    pub printing: bool,
}

// A receiver behind two successive α in DX (02, T-03): the DX word of the one position that still waits for its RX, whether printing
// has begun, and how many words are still to be heard, 3 to 1. Behind the first of the three nothing waits: the word is 0, and nothing
// is printed any more.
#[derive(Clone, Copy, PartialEq, Eq)]
pub struct Wait {
    pub word: u8,
    pub printing: bool,
    pub left: u8,
}

// What a receiver is doing. The search run, and the last signal of it, exist only while it searches; the remaining wait only while it
// waits.
#[derive(Clone, Copy, PartialEq, Eq)]
pub enum Hearing {
    Searching(u8, Phasing),
    InPhase(Phase),
    Waiting(Wait),
}

// A receiver of mode B.
#[derive(Clone, Copy, PartialEq, Eq)]
pub struct Receiver {
    pub hearing: Hearing,
}

// What a position is settled to by its two copies: a signal, by its word; phasing; or an error.
#[derive(Clone, Copy, PartialEq, Eq)]
pub enum Settled {
    Signal(u8),
    Phasing,
    Error,
}

// What a receiver's step answers: the receiver, and the signal that it prints, if any; 255 for an error.
#[derive(Clone, Copy, PartialEq, Eq)]
pub struct Heard {
    pub receiver: Receiver,
    pub printed: Option<u8>,
}

// 4: a receiver with a search run over 3, or a remaining wait over 3, handed back as it was.
#[derive(Clone, Copy, PartialEq, Eq)]
pub struct BadReceiver(pub Receiver);

impl Receiver {
    // A receiver that has heard nothing.
    pub fn fresh() -> Self
        ensures { result ≡ fresh_receiver }
    {
        Receiver {
            hearing: Hearing::Searching(0, Phasing::One),
        }
    }
}

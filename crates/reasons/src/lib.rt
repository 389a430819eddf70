// Why a station answered as it did, and why a receiver of mode B printed an error mark (02, T-08): the reasons, by name. Which one is given
// when is `specs/Reasons.antt` and `specs/Stars.antt`.
#![tactic(auto)]

// The reasons, in the order of 02's list; of those that hold the first is given. What 02's list lacks, since it was written before T-02, T-05
// and T-06, is an addition (docs/DECISIONS.md), marked *.
#[derive(Clone, Copy)]
pub enum Reason {
    // "silent place": Lost, and Stand-by that is neither called nor places a call
    Silent,
    // "time-out": the 32nd repetition
    TimeOut,
    // * a call was sent 128 times, and this burst neither answers nor stops it
    RunOut,
    // What the place's row names. * At Stand-by the own call blocks, heard in succession; a call that is offered, and is placed
    Called,
    CallOffered,
    // the control signal of its own number, of the other number, of either; * CS1, where CS2 would not count
    Own,
    Other,
    Either,
    Cs1,
    // CS3; * CS4, CS5
    Cs3,
    Cs4,
    Cs5,
    // RQ, or RQ RQ RQ; βαβ; ααα
    Rq,
    Turn,
    Alphas,
    // * the check-sum that is expected; another one
    RightSum,
    WrongSum,
    // * the identification block that the stage awaits; the one before it, again
    Told,
    ToldAgain,
    // "earliest bad place and its word": the index, 0 to 2, of the first word read that is mutilated, and that word
    Bad(usize, u8),
    // "earliest RQ": the index of the first RQ among the words read
    Repeat(usize),
    // "other word not expected"
    Unexpected,
    // An accepted block: "over heard"; * who are you heard; "over offered"; "accepted"
    OverHeard,
    WhoAreYou,
    OverOffered,
    Accepted,
}

// Why a step of a receiver of mode B prints an error mark: the DX and the RX word of the position, as they were heard.
#[derive(Clone, Copy, PartialEq, Eq)]
pub enum Star {
    // "both copies bad"
    BothBad(u8, u8),
    // "both good and unlike"
    Unlike(u8, u8),
}

// Why `starring::star` has no answer. It hands no receiver back.
#[derive(Clone, Copy, PartialEq, Eq)]
pub enum StarError {
    // 4: a search run or a remaining wait over 3
    BadReceiver,
}

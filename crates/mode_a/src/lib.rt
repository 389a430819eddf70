// One station of mode A (01, The station; 02, T-02, T-05 and T-06; 001, 3.3 to 3.7): what it is made of. The step is `station::step`; its rules,
// place by place, are `specs/Rows.antt` and `specs/Step.antt`.
#![tactic(auto)]

ghost use Rattle.std.specs.Prelude.{◌≡◌, ◌≤◌, ◌<◌, OnOk, IfErr};
ghost use Rattle.signals.specs.Numbers.{first_not};
ghost use Rattle.identity.specs.Table3.{is_identity};
ghost use Rattle.mode_a.specs.Calls.{signals_of, call_block1, call_block2};
ghost use Rattle.mode_a.specs.Station.{other, same, asks_for, mark_of, fresh_master, fresh_slave, first_burst, fresh_at, StandsBy, StandsByBoth};
ghost use Rattle.mode_a.specs.Heard.{may_hold};
ghost use Rattle.mode_a.specs.Rows.{is_last};
ghost use Rattle.mode_a.specs.Step.{TellsRefusal};

use identity::Seven;
use signals::Case;

// "A station is master or slave".
#[derive(Clone, Copy, PartialEq, Eq)]
pub enum Role {
    Master,
    Slave,
}

// The number of a block: one of two, by its type.
#[derive(Clone, Copy, PartialEq, Eq)]
pub enum Number {
    One,
    Two,
}

impl Number {
    pub fn other(self) -> Number
        ensures { result ≡ other self }
    {
        match self {
            Number::One => Number::Two,
            Number::Two => Number::One,
        }
    }

    pub fn same(self, number: Number) -> bool
        ensures { result ≡ same self number }
    {
        self == number
    }

    // The control signal that asks for the block with this number.
    pub fn asks(self) -> Words
        ensures { result ≡ asks_for self }
    {
        match self {
            Number::One => Words(signals::CS1, 0, 0),
            Number::Two => Words(signals::CS2, 0, 0),
        }
    }

    pub fn mark(self) -> Mark
        ensures { result ≡ mark_of self }
    {
        match self {
            Number::One => Mark::One,
            Number::Two => Mark::Two,
        }
    }
}

// Which of two was heard in the last step, if either: of the own call blocks at Stand-by, of CS1 and CS2 at Calling.
#[derive(Clone, Copy)]
pub enum Mark {
    None,
    One,
    Two,
}

// Which of three a burst is, if any: of the own call blocks of seven signals at Stand-by, of the identification blocks at Answering.
#[derive(Clone, Copy)]
pub enum Part {
    None,
    One,
    Two,
    Three,
}

// Which of the own call blocks of seven signals were heard in succession, up to the last step.
#[derive(Clone, Copy)]
pub enum Succession {
    None,
    One,
    OneTwo,
    Two,
    TwoThree,
}

// How far identification has come: the block that Identifying sends and Answering awaits. The fourth is RQ RQ RQ.
#[derive(Clone, Copy, PartialEq, Eq)]
pub enum Stage {
    One,
    Two,
    Three,
    Four,
}

impl Stage {
    // Whether identification ends with this stage's block.
    pub fn is_last(self) -> bool
        ensures { result ≡ is_last self }
    {
        self == Stage::Four
    }
}

// Three words: a burst, a block, the words of a text offer, or up to three printed signals with 0 behind them.
#[derive(Clone, Copy, PartialEq, Eq)]
pub struct Words(pub u8, pub u8, pub u8);

pub const SILENCE: Words = Words(0, 0, 0);

pub const RQS: Words = Words(signals::RQ, signals::RQ, signals::RQ);

pub const ALPHAS: Words = Words(signals::ALPHA, signals::ALPHA, signals::ALPHA);

pub const TURN: Words = Words(signals::BETA, signals::ALPHA, signals::BETA);

// Whether a word may stand in a block: traffic or β, which is every intact word but α and RQ.
#[tactic(auto, using(crate::proofs::HeardLaws::may_hold_is))]
pub fn may_hold(word: u8) -> bool
    ensures { result ≡ may_hold word }
{
    signals::intact(word) & (word != signals::ALPHA) & (word != signals::RQ)
}

// Four identity signals (02, T-02; 001, 3.5.2). A station without an identity has four zeros.
#[derive(Clone, Copy)]
pub struct Identity(pub u8, pub u8, pub u8, pub u8);

impl Identity {
    // "call block 1": the first identification signal, RQ and the second (001, 3.5.3).
    pub fn block_1(self) -> Words
        ensures { result ≡ call_block1 self }
    {
        Words(self.0, signals::RQ, self.1)
    }

    // "call block 2": the third and the fourth identification signals and RQ.
    pub fn block_2(self) -> Words
        ensures { result ≡ call_block2 self }
    {
        Words(self.2, self.3, signals::RQ)
    }

    // The index of the first signal outside table 3a; 4 where all four are of it.
    pub fn first_outside(self) -> usize
        ensures { result ≡ first_not is_identity (signals_of self) }
    {
        let signals = [self.0, self.1, self.2, self.3];
        signals
            .iter()
            .position(|&word| !identity::may_identify(word))
            .unwrap_or(4)
    }

    // Refuses 8, with the index of the first signal outside table 3a.
    fn judged(self) -> Result<(), BadIdentity>
        ensures ok { OnOk result (4 ≤ first_not is_identity (signals_of self)) }
        ensures err { IfErr result (λ e. (e.0 ≡ first_not is_identity (signals_of self)) × (e.0 < 4)) }
    {
        let outside = self.first_outside();
        if outside < 4 {
            return Err(BadIdentity(outside));
        }
        Ok(())
    }
}

// The answer-back code (02, T-06; 001, 3.7.13.2): at most 20 signals, three to a block. Only the words below the length count; the empty
// code has length 0.
#[derive(Clone, Copy)]
pub struct Code {
    pub length: u8,
    pub first: Words,
    pub second: Words,
    pub third: Words,
    pub fourth: Words,
    pub fifth: Words,
    pub sixth: Words,
    pub seventh: Words,
}

pub const NO_CODE: Code = Code {
    length: 0,
    first: SILENCE,
    second: SILENCE,
    third: SILENCE,
    fourth: SILENCE,
    fifth: SILENCE,
    sixth: SILENCE,
    seventh: SILENCE,
};

// What is still owed of an answer-back: nothing; its blocks from this index on, the last of which turns the direction back; or its blocks
// from this index on, the direction being kept.
#[derive(Clone, Copy)]
pub enum Owed {
    Nothing,
    Back(u8),
    Keep(u8),
}

// What Sending holds: a block and its number.
#[derive(Clone, Copy)]
pub struct Held {
    pub number: Number,
    pub block: Words,
}

// What Ending holds: the number under which end was taken, and how often ααα has been sent.
#[derive(Clone, Copy)]
pub struct Ended {
    pub number: Number,
    pub total: u8,
}

// What Stand-by holds: the steps left in which it places no call of four signals, nor the one of seven that is barred; and which of its own
// call blocks it has heard: of four signals in the last step, of seven in succession up to it.
#[derive(Clone, Copy)]
pub struct Waiting {
    pub wait: u8,
    pub heard: Mark,
    pub heard3: Succession,
}

// What Calling holds: the identity called, how many call bursts were sent, and which of CS1 and CS2 the last step heard.
#[derive(Clone, Copy)]
pub struct Called {
    pub to: Identity,
    pub sent: u8,
    pub last: Mark,
}

// What Calling with three blocks holds: the identity called, and how many call bursts were sent.
#[derive(Clone, Copy)]
pub struct Called3 {
    pub to: Seven,
    pub sent: u8,
}

// What Identifying holds: the identity called, the stage, how often a wrong check-sum has had the stage's block sent again, and the last
// wrong check-sum.
#[derive(Clone, Copy)]
pub struct Identified {
    pub to: Seven,
    pub stage: Stage,
    pub wrong: u8,
    pub last: u8,
}

// What Answering holds: the stage, and the signals of the master's identity gathered so far.
#[derive(Clone, Copy)]
pub struct Gathered {
    pub stage: Stage,
    pub got: Seven,
}

// The places, with what each carries. The moves between them:
//   Opening    -> Sending      CS1 or CS2 first, the offer, or what is owed of an answer, taken under that number;  -> Stand-by at CS3
//   Sending    -> Turning      CS3 first.      Sending, Opening -> Ending   where the offer taken is end
//   Turning    -> Receiving    RQ RQ RQ (master), RQ first (slave).        Asking -> Opening   βαβ
//   Receiving  -> Asking       a block accepted, and the over heard in it or offered, or D in figures in it;  -> Stand-by at ααα
//   Ending     -> Stand-by     the other number's signal, or ααα sent four times
//   Stand-by   -> Receiving    both own call blocks heard;  -> Calling   a call of four signals offered, and nothing left to wait
//   Calling    -> Sending      the same CS1 or CS2 twice, or Ending;  -> Stand-by at CS3, or where 128 call bursts are sent
//   Stand-by   -> Answering    the three own call blocks heard;  -> Calling3   one of seven offered, unless it is barred and has to wait
//   Calling3   -> Identifying  CS4;  -> Ending at CS5;  -> Stand-by at CS3, or where 128 call bursts are sent
//   Identifying -> Sending     CS1 behind the fourth stage, or Ending;  -> Turning at CS3 there;  -> Ending, Stand-by   wrong check-sums
//   Answering  -> Receiving    RQ RQ RQ at the fourth stage, or Asking where over is offered;  -> Stand-by at ααα
//   Sending, Turning, Opening, Receiving, Asking -> Lost   the 32nd repetition;  Identifying, Answering -> Stand-by
#[derive(Clone, Copy)]
pub enum Place {
    Sending(Held),
    // the number of the last block
    Turning(Number),
    Opening,
    Ending(Ended),
    // the number awaited
    Receiving(Number),
    Asking,
    StandBy(Waiting),
    Lost,
    Calling(Called),
    Calling3(Called3),
    Identifying(Identified),
    Answering(Gathered),
}

// "An offer is text (three words), over, end or nothing", or a call to an identity of four signals (02, T-02) or of seven (T-05).
#[derive(Clone, Copy)]
pub enum Offer {
    Text(Words),
    Over,
    End,
    Nothing,
    Call(Identity),
    Call3(Seven),
}

// What no step changes: the own identities, and the answer-back code.
#[derive(Clone, Copy)]
pub struct Own {
    pub four: Identity,
    pub seven: Seven,
    pub code: Code,
}

// Of a station without an identity and with the empty code.
pub const NO_OWN: Own = Own {
    four: Identity(0, 0, 0, 0),
    seven: Seven(0, 0, 0, 0, 0, 0, 0),
    code: NO_CODE,
};

// Who is at the other end, as far as this station knows: the identity of four signals that it called, or that of seven which
// identification has told. Barred: nobody, and the three-block call to this identity has failed and is not to be placed again at once.
#[derive(Clone, Copy)]
pub enum Peer {
    Nobody,
    Four(Identity),
    Known(Seven),
    Barred(Seven),
}

// A station: at every place it has its repetition count, and of the direction that it receives the case and whether a + was
// heard that a ? would make an over; its own identities and code, who is at the other end, and what is still owed of an answer-back.
#[derive(Clone, Copy)]
pub struct Station {
    pub role: Role,
    pub place: Place,
    pub count: u8,
    pub case: Case,
    pub plus: bool,
    pub own: Own,
    pub other: Peer,
    pub owed: Owed,
}

// What is kept of the signals of accepted blocks: the case, whether a + was heard that only β has followed, and whether the over, and
// whether D in figures (who are you), was heard in this block.
#[derive(Clone, Copy)]
pub struct Listening {
    pub case: Case,
    pub plus: bool,
    pub over: bool,
    pub asked: bool,
}

// What a row says is done.
#[derive(Clone, Copy)]
pub enum Doing {
    // stay, and send these: a repetition
    Repeats(Words),
    // go to the place, and send these
    Goes(Place, Words),
    // take the offer, or the next block of an answer that is owed, under the number
    Takes(Number),
    // go to Receiving, await the number and ask for it; this cancels a + heard
    Receives(Number),
    // go to Opening, and send RQ as there; this cancels a + heard
    Opens,
    // accept the block that has the number
    Accepts(Number),
    // go to Stand-by with so many steps to wait, or 128 where an identity is barred, and send these
    Rests(u8, Words),
    // at Stand-by: answer the call; place the call that is offered where it need not wait, or stay, this burst being kept
    Answers,
    Listens(Waiting),
    // who is at the other end is known: take the offer, or what is owed, under the number
    Reaches(Peer, Number),
    // at Stand-by: answer the three-block call
    Answers3,
    // the three-block call has failed, and its identity is barred: go to Stand-by; or end (CS5)
    Bars(Seven),
    Ends(Seven),
    // identification is over, and the identity is at the other end: go to Turning (the master), or to traffic by the offer (the slave)
    Turns(Seven),
    Meets(Seven),
    // a repetition in identification: stand so at the same place, and send these; the 32nd leads to Stand-by
    Again(Place, Words),
    // the last block, which has the number, is confirmed and the direction turns: go to Turning; what is owed of an answer is dropped
    Yields(Number),
}

// What a step answers.
#[derive(Clone, Copy)]
pub struct Reply {
    pub station: Station,
    pub sent: Words,
    pub printed: Words,
    pub taken: bool,
}

// Why a step is refused, and so is the question for its reason.
#[derive(Clone, Copy, PartialEq, Eq)]
pub enum Refusal {
    // 4: a count over 31, an Ending total not 1 to 4, a held word neither traffic nor β, or an owed block that the answer does not have
    BadStation,
    // 9: a code over 20 signals, with a word that is not traffic, or holding D in figures or an over from either case
    BadCode,
    // 3: a word of the text offer neither traffic nor β; the index of the first
    BadWord(usize),
    // 8: a signal of the identity called, or behind it of the own one that identification tells, outside table 3a; the index of the first
    BadCall(usize),
}

impl Refusal {
    // The refusal's number, and the value beside it (01, Numbers returned).
    pub fn told(self) -> (u8, usize)
        ensures { TellsRefusal self result }
    {
        match self {
            Refusal::BadStation => (4, 0),
            Refusal::BadCode => (9, 0),
            Refusal::BadWord(index) => (3, index),
            Refusal::BadCall(index) => (8, index),
        }
    }
}

// What `station::step` answers where it refuses: the same station, and why.
#[derive(Clone, Copy)]
pub struct Refused {
    pub station: Station,
    pub why: Refusal,
}

// What `answerback::with_code` answers where it refuses: the same station. 9: a code over 20 signals, with a word that is not traffic, or
// holding D in figures or an over from either case.
#[derive(Clone, Copy)]
pub struct BadCode(pub Station);

// What `Station::standing_by` and `Station::standing_by_both` answer where they refuse. 8: a signal of an own identity outside table 3a; the
// index of the first.
#[derive(Clone, Copy, PartialEq, Eq)]
pub struct BadIdentity(pub usize);

impl Station {
    // The repetition that makes a station Lost, or in identification leads it to Stand-by.
    pub const LIMIT: u8 = 32;

    // How often ααα is sent.
    pub const ENDINGS: u8 = 4;

    // How many call bursts are sent, and how many steps are waited after a call that failed.
    pub const CALLS: u8 = 128;

    // How often an identification block is sent again for wrong check-sums.
    pub const WRONGS: u8 = 4;

    // "A fresh slave is Receiving, awaits 1, and its first burst is CS1": the caller sends that burst, `first_burst`, before
    // the first step.
    pub fn fresh_slave() -> Self
        ensures { result ≡ fresh_slave }
    {
        Station {
            role: Role::Slave,
            place: Place::Receiving(Number::One),
            count: 0,
            case: Case::Letters,
            plus: false,
            own: NO_OWN,
            other: Peer::Nobody,
            owed: Owed::Nothing,
        }
    }

    // "A fresh master is Opening."
    pub fn fresh_master() -> Self
        ensures { result ≡ fresh_master }
    {
        Station {
            role: Role::Master,
            place: Place::Opening,
            ..Station::fresh_slave()
        }
    }

    // A station at Stand-by that nobody has called yet. It is neither master nor slave (001, 3.5.1), and keeps the fresh slave's role: the type
    // has no third one, and no row of Stand-by looks at it.
    fn fresh_at(own: Own) -> Self
        ensures { result ≡ fresh_at own }
    {
        Station {
            place: Place::StandBy(Waiting {
                wait: 0,
                heard: Mark::None,
                heard3: Succession::None,
            }),
            own,
            ..Station::fresh_slave()
        }
    }

    // A station at Stand-by that is called by `identity` (02, T-02; 001, 3.5.1), and has none of seven signals. Refuses 8, with the index
    // of the first signal outside table 3a: a station with such an identity would never be called.
    #[tactic(auto, using(crate::proofs::CallLaws::outside, crate::proofs::CallLaws::stands))]
    pub fn standing_by(identity: Identity) -> Result<Station, BadIdentity>
        ensures { StandsBy identity result }
    {
        identity.judged()?;
        Ok(Station::fresh_at(Own {
            four: identity,
            ..NO_OWN
        }))
    }

    // The same with both identities (02, T-05; 001, 3.5.2.1): the index counts the four signals, and then the seven.
    #[tactic(auto, using(crate::proofs::CallLaws::outside_four, crate::proofs::CallLaws::outside_seven, crate::proofs::CallLaws::stands_both))]
    pub fn standing_by_both(four: Identity, seven: Seven) -> Result<Station, BadIdentity>
        ensures { StandsByBoth four seven result }
    {
        four.judged()?;
        let of_seven = seven.first_outside();
        if of_seven < 7 {
            return Err(BadIdentity(4 + of_seven));
        }
        Ok(Station::fresh_at(Own {
            four,
            seven,
            ..NO_OWN
        }))
    }

    // "its first burst is CS1" (R-094): CS1 0 0. It stands before the first step, so no step answers it, and it counts as no repetition.
    pub fn first_burst() -> Words
        ensures { result ≡ first_burst }
    {
        Number::One.asks()
    }
}

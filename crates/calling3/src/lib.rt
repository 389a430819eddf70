// Three-block calls (02, T-05; 001, 3.5): what Stand-by hears of a call to the own seven signals, and what Calling with three blocks does
// with what it hears. Which kind of burst it is, is told by `table`, and what the place carries by `carried`.
#![tactic(auto)]

ghost use Rattle.std.specs.Prelude.{◌≡◌, if◌then◌else◌};
ghost use Rattle.identity.specs.Sums.{is_callable7};
ghost use Rattle.mode_a.specs.Calls.{call3_block1, call3_block2, call3_block3, next_block3};
ghost use Rattle.mode_a.specs.Heard.{Else, Cs4, call3_of};
ghost use Rattle.mode_a.specs.Rows.{all_heard, heard_then, calls_on3, calling3};
ghost use Rattle.carried.specs.Carried.{called3_in};

use identity::Seven;
use mode_a::{Called3, Doing, Identified, Own, Part, Place, Stage, Station, Succession, Words};

// The three call blocks of an identity (001, 3.5.3).
fn block_1(to: Seven) -> Words
    ensures { result ≡ call3_block1 to }
{
    Words(to.0, signals::RQ, to.1)
}

fn block_2(to: Seven) -> Words
    ensures { result ≡ call3_block2 to }
{
    Words(signals::RQ, to.2, to.3)
}

// Three plain letters, with no RQ among them.
fn block_3(to: Seven) -> Words
    ensures { result ≡ call3_block3 to }
{
    Words(to.4, to.5, to.6)
}

// The part, where all seven signals are of table 3a: a station with another identity, or with none, hears no call.
#[tactic(auto, using(crate::proofs::Call3Laws::outside, crate::proofs::Call3Laws::none_outside))]
fn if_callable(seven: Seven, part: Part) -> Part
    ensures { result ≡ (if is_callable7 seven then part else Part.None) }
{
    if seven.first_outside() < 7 {
        Part::None
    } else {
        part
    }
}

// Which of the own call blocks the burst is, if any. Table 3a is asked only where the burst is one of the three.
#[tactic(auto, unfolding(mode_a::specs::Heard::call3_of, mode_a::specs::Heard::is_words))]
pub fn call_of(seven: Seven, b: Words) -> Part
    ensures { result ≡ call3_of seven b }
{
    if b == block_1(seven) {
        if_callable(seven, Part::One)
    } else if b == block_2(seven) {
        if_callable(seven, Part::Two)
    } else if b == block_3(seven) {
        if_callable(seven, Part::Three)
    } else {
        Part::None
    }
}

// "the three call blocks in succession": whether this one completes 1-2-3 or 2-3-1.
pub fn all_heard(before: Succession, heard: Part) -> bool
    ensures { result ≡ all_heard before heard }
{
    matches!(
        (before, heard),
        (Succession::TwoThree, Part::One) | (Succession::OneTwo, Part::Three)
    )
}

// Which blocks are then heard in succession. Block 3 begins nothing: it is three plain letters.
pub fn heard_then(before: Succession, heard: Part) -> Succession
    ensures { result ≡ heard_then before heard }
{
    match (before, heard) {
        (_, Part::One) => Succession::One,
        (Succession::One, Part::Two) => Succession::OneTwo,
        (_, Part::Two) => Succession::Two, // twice in a row too: block 1 no longer stands right before it
        (Succession::Two, Part::Three) => Succession::TwoThree,
        _ => Succession::None,
    }
}

// The three call blocks in turn: the block that follows so many of them.
#[tactic(auto, unfolding(mode_a::specs::Calls::next_block3))]
fn next_block(to: Seven, sent: u8) -> Words
    ensures { result ≡ next_block3 to sent }
{
    match sent % 3 {
        0 => block_1(to),
        1 => block_2(to),
        _ => block_3(to),
    }
}

// Calling with three blocks that hears none of CS3, CS4 and CS5: the next call block, "within 128 cycles".
pub fn calls_on(place: Place) -> Doing
    ensures { result ≡ calls_on3 (called3_in place) }
{
    let c = carried::called3_in(place);
    if Station::CALLS <= c.sent {
        return Doing::Bars(c.to);
    }
    Doing::Goes(
        Place::Calling3(Called3 {
            sent: c.sent + 1,
            ..c
        }),
        next_block(c.to, c.sent),
    )
}

// CS4: "starts the identification procedure" by the first block, of the own identity (001, 3.6.2).
pub fn identifies(place: Place, own: Own) -> Doing
    ensures { result ≡ calling3 own.seven (called3_in place) (Else Cs4) }
{
    let c = carried::called3_in(place);
    Doing::Goes(
        Place::Identifying(Identified {
            to: c.to,
            stage: Stage::One,
            wrong: 0,
            last: 0,
        }),
        Words(own.seven.0, signals::ALPHA, own.seven.1),
    )
}

// CS5: "starts the end-of-communication procedure".
pub fn ends(place: Place) -> Doing
    ensures { result ≡ Doing.Ends (called3_in place).to }
{
    Doing::Ends(carried::called3_in(place).to)
}

// CS3: "immediately changes to the stand-by condition".
pub fn stops(place: Place) -> Doing
    ensures { result ≡ Doing.Bars (called3_in place).to }
{
    Doing::Bars(carried::called3_in(place).to)
}

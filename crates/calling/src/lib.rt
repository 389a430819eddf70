// What Stand-by and Calling do with what they hear (02, T-02 and T-05; 001, 3.5). Which kind of burst it is, is told by `table`, what the
// place carries by `carried`, and what Stand-by hears of a three-block call by `calling3`.
#![tactic(auto)]

ghost use Rattle.std.specs.Prelude.{◌≡◌, if◌then◌else◌};
ghost use Rattle.mode_a.specs.Calls.{is_callable, next_block};
ghost use Rattle.mode_a.specs.Station.{marks};
ghost use Rattle.mode_a.specs.Heard.{Cs, call_of, call3_of};
ghost use Rattle.mode_a.specs.Rows.{both_heard, stand_by, calls_on, calling};
ghost use Rattle.carried.specs.Carried.{waiting_in, called_in};

use mode_a::{Called, Doing, Identity, Mark, Number, Own, Peer, Place, Station, Waiting, Words};

// The mark, where all four signals are of table 3a: a station with another identity, or with none, hears no call.
#[tactic(auto, using(crate::proofs::CallLaws::outside, crate::proofs::CallLaws::none_outside))]
fn if_callable(four: Identity, mark: Mark) -> Mark
    ensures { result ≡ (if is_callable four then mark else Mark.None) }
{
    if four.first_outside() < 4 {
        Mark::None
    } else {
        mark
    }
}

// Which of the own call blocks the burst is, if either. Table 3a is asked only where the burst is one of the two.
#[tactic(auto, unfolding(mode_a::specs::Heard::call_of, mode_a::specs::Heard::is_words))]
pub fn call_of(four: Identity, b: Words) -> Mark
    ensures { result ≡ call_of four b }
{
    if b == four.block_1() {
        if_callable(four, Mark::One)
    } else if b == four.block_2() {
        if_callable(four, Mark::Two)
    } else {
        Mark::None
    }
}

// "after both blocks in succession": in either order; the same block twice is one.
pub fn both_heard(before: Mark, now: Mark) -> bool
    ensures { result ≡ both_heard before now }
{
    matches!(
        (before, now),
        (Mark::One, Mark::Two) | (Mark::Two, Mark::One)
    )
}

// Stand-by that hears a burst: it answers a call to either own identity, or keeps which of its own call blocks this is.
pub fn listening(place: Place, own: Own, burst: Words) -> Doing
    ensures { result ≡ stand_by (waiting_in place) (call_of own.four burst) (call3_of own.seven burst) }
{
    let w = carried::waiting_in(place);
    let heard = call_of(own.four, burst);
    if both_heard(w.heard, heard) {
        return Doing::Answers;
    }
    let part = calling3::call_of(own.seven, burst);
    if calling3::all_heard(w.heard3, part) {
        return Doing::Answers3;
    }
    let heard3 = calling3::heard_then(w.heard3, part);
    Doing::Listens(Waiting { heard, heard3, ..w })
}

// "sends call blocks 1 and 2 in turn": the block that follows so many of them.
#[tactic(auto, unfolding(mode_a::specs::Calls::next_block))]
fn next_block(to: Identity, sent: u8) -> Words
    ensures { result ≡ next_block to sent }
{
    if sent % 2 == 0 {
        to.block_1()
    } else {
        to.block_2()
    }
}

// Calling that hears neither what completes the call nor CS3: the next call block, "for at most 128 cycles".
pub fn calls_on(place: Place, heard: Mark) -> Doing
    ensures { result ≡ calls_on (called_in place) heard }
{
    let c = carried::called_in(place);
    if Station::CALLS <= c.sent {
        return Doing::Rests(Station::CALLS, mode_a::SILENCE);
    }
    Doing::Goes(
        Place::Calling(Called {
            to: c.to,
            sent: c.sent + 1,
            last: heard,
        }),
        next_block(c.to, c.sent),
    )
}

// Whether the step before heard the control signal of the number.
fn marks(last: Mark, number: Number) -> bool
    ensures { result ≡ marks last number }
{
    matches!(
        (last, number),
        (Mark::One, Number::One) | (Mark::Two, Number::Two)
    )
}

// Calling that hears the control signal of a number: "two successive identical CS1 or CS2" complete the call.
pub fn called(place: Place, number: Number) -> Doing
    ensures { result ≡ calling (called_in place) (Cs number) }
{
    let c = carried::called_in(place);
    if marks(c.last, number) {
        Doing::Reaches(Peer::Four(c.to), number)
    } else {
        calls_on(place, number.mark())
    }
}

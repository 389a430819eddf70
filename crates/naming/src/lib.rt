// The reason for a station's answer, place by place (02, T-08): from what the place carries and the words that it reads. `late` says that the
// count is 31 or more, so that a repetition is the 32nd. Which place it is, is told by `help_desk`.
#![tactic(auto)]

ghost use Rattle.std.specs.Prelude.{◌≡◌, ◌≤◌, take, get_or, if◌then◌else◌};
ghost use Rattle.signals.specs.Units.{intact_of};
ghost use Rattle.signals.specs.Numbers.{first_not};
ghost use Rattle.mode_a.specs.Identification.{told_in};
ghost use Rattle.mode_a.specs.Station.{list_of, marks};
ghost use Rattle.mode_a.specs.Heard.{first_of, is_block};
ghost use Rattle.reasons.specs.Reasons.{is_placed, not_rq, judged, accepted_for};
ghost use Rattle.naming.specs.Places.{signal_of, timed, judged_one, judged_all, of_sending, turning_by, of_turning, of_opening, of_ending, of_receiving, of_asking, of_stand_by, sent_out, of_calling, of_calling3, gives_up, summing, comparing_by, finishing_by, of_identifying, due_by, telling_by, of_answering};

use answering::Due;
use identity::Seven;
use mode_a::{
    Identified, Identity, Listening, Mark, Number, Offer, Part, Peer, Role, Stage, Station,
    Waiting, Words,
};
use reasons::Reason;
use signals::Case;

// What a first word is, as far as most places that read one ask of it: the control signal of a number, CS3, or any other byte.
#[derive(Clone, Copy)]
enum Signal {
    Cs(Number),
    Cs3,
    Other,
}

#[tactic(auto, unfolding(mode_a::specs::Heard::first_of))]
fn signal_of(word: u8) -> Signal
    ensures { result ≡ signal_of (first_of word) }
{
    match word {
        signals::CS1 => Signal::Cs(Number::One),
        signals::CS2 => Signal::Cs(Number::Two),
        signals::CS3 => Signal::Cs3,
        _ => Signal::Other,
    }
}

// The place of the first that fails; 3 where none does.
fn first_not(at_0: bool, at_1: bool, at_2: bool) -> usize
    ensures { result ≡ (if at_0 then if at_1 then if at_2 then 3 else 2 else 1 else 0) }
{
    if !at_0 {
        0
    } else if !at_1 {
        1
    } else if !at_2 {
        2
    } else {
        3
    }
}

// The word at a place.
fn word_at(b: Words, place: usize) -> u8
    ensures { result ≡ get_or (list_of b) place 0 }
{
    match place {
        0 => b.0,
        1 => b.1,
        2 => b.2,
        _ => 0,
    }
}

// What the row does not name, by the words that the place reads, the first or all three: the earliest bad place and its word, the earliest
// RQ, another word not expected.
fn judged(b: Words, read: usize) -> Reason
    requires { read ≤ 3 }
    ensures { result ≡ judged (take read (list_of b)) Reason.Unexpected }
{
    let bad = first_not(
        signals::intact(b.0),
        signals::intact(b.1),
        signals::intact(b.2),
    );
    let rq = first_not(b.0 != signals::RQ, b.1 != signals::RQ, b.2 != signals::RQ);
    if bad < read {
        Reason::Bad(bad, word_at(b, bad))
    } else if rq < read {
        Reason::Repeat(rq)
    } else {
        Reason::Unexpected
    }
}

// "Places that read one word judge that word only."
#[tactic(auto, unfolding(crate::specs::Places::judged_one))]
fn judged_one(word: u8) -> Reason
    ensures { result ≡ judged_one word }
{
    judged(Words(word, 0, 0), 1)
}

#[tactic(auto, unfolding(crate::specs::Places::judged_all))]
fn judged_all(b: Words) -> Reason
    ensures { result ≡ judged_all b }
{
    judged(b, 3)
}

// A reason of a repetition: the 32nd is the time-out before it.
fn timed(late: bool, reason: Reason) -> Reason
    ensures { result ≡ timed late reason }
{
    if late { Reason::TimeOut } else { reason }
}

fn unnamed(late: bool, word: u8) -> Reason
    ensures { result ≡ timed late (judged_one word) }
{
    timed(late, judged_one(word))
}

fn unnamed_all(late: bool, b: Words) -> Reason
    ensures { result ≡ timed late (judged_all b) }
{
    timed(late, judged_all(b))
}

// Sending, that holds the block with this number.
#[tactic(auto, unfolding(crate::specs::Places::of_sending))]
pub fn sending(number: Number, late: bool, first: u8) -> Reason
    ensures { result ≡ of_sending number late first }
{
    match signal_of(first) {
        Signal::Cs(heard) if heard == number => timed(late, Reason::Own),
        Signal::Cs(_) => Reason::Other,
        Signal::Cs3 => Reason::Cs3,
        Signal::Other => unnamed(late, first),
    }
}

// Turning that has not heard what completes the turn: CS3, or what its row does not name.
#[tactic(auto, using(crate::proofs::FirstLaws::turning_else_lem), unfolding(mode_a::specs::Heard::first_of))]
fn turned(late: bool, first: u8, rest: Reason) -> Reason
    ensures { result ≡ turning_by late rest (signal_of (first_of first)) }
{
    timed(
        late,
        if first == signals::CS3 {
            Reason::Cs3
        } else {
            rest
        },
    )
}

// Turning. A master awaits RQ RQ RQ, and reads three words; a slave awaits RQ, and reads one.
#[tactic(auto, unfolding(crate::specs::Places::of_turning, mode_a::specs::Heard::first_of, mode_a::specs::Heard::is_words))]
pub fn turning(role: Role, late: bool, b: Words) -> Reason
    ensures { result ≡ of_turning role late b }
{
    match role {
        Role::Master if b == mode_a::RQS => Reason::Rq,
        Role::Master => turned(late, b.0, judged_all(b)),
        Role::Slave if b.0 == signals::RQ => Reason::Rq,
        Role::Slave => turned(late, b.0, judged_one(b.0)),
    }
}

// Opening.
#[tactic(auto, unfolding(crate::specs::Places::of_opening))]
pub fn opening(late: bool, first: u8) -> Reason
    ensures { result ≡ of_opening late first }
{
    match signal_of(first) {
        Signal::Cs(_) => Reason::Either,
        Signal::Cs3 => Reason::Cs3,
        Signal::Other => unnamed(late, first),
    }
}

// Ending, under this number. ααα is sent four times, and no time-out is counted.
#[tactic(auto, unfolding(crate::specs::Places::of_ending))]
pub fn ending(number: Number, first: u8) -> Reason
    ensures { result ≡ of_ending number first }
{
    match signal_of(first) {
        Signal::Cs(heard) if heard != number => Reason::Other,
        Signal::Cs(_) | Signal::Cs3 | Signal::Other => judged_one(first),
    }
}

#[tactic(auto, unfolding(mode_a::specs::Heard::is_block))]
fn is_block(b: Words) -> bool
    ensures { result ≡ is_block b }
{
    mode_a::may_hold(b.0) && mode_a::may_hold(b.1) && mode_a::may_hold(b.2)
}

// A block that is accepted. An over that is offered waits where D stood in figures in the block, so it is no reason there.
fn accepted(l: Listening, over: bool) -> Reason
    ensures { result ≡ accepted_for l over }
{
    if l.over {
        Reason::OverHeard
    } else if l.asked {
        Reason::WhoAreYou
    } else if over {
        Reason::OverOffered
    } else {
        Reason::Accepted
    }
}

// Receiving, with the case and the + that it has kept; `over` is whether over is offered.
#[tactic(auto, unfolding(crate::specs::Places::of_receiving, mode_a::specs::Heard::is_words))]
pub fn receiving(late: bool, case: Case, plus: bool, b: Words, over: bool) -> Reason
    ensures { result ≡ of_receiving late case plus b over }
{
    if b == mode_a::ALPHAS {
        Reason::Alphas
    } else if is_block(b) {
        accepted(acceptance::listened_all(case, plus, b), over)
    } else {
        unnamed_all(late, b)
    }
}

// Asking.
#[tactic(auto, unfolding(crate::specs::Places::of_asking, mode_a::specs::Heard::is_words))]
pub fn asking(late: bool, b: Words) -> Reason
    ensures { result ≡ of_asking late b }
{
    if b == mode_a::TURN {
        Reason::Turn
    } else {
        unnamed_all(late, b)
    }
}

// Whether Stand-by that is not called places the call that is offered.
fn placed(w: Waiting, other: Peer, offer: Offer) -> bool
    ensures { result ≡ is_placed w other offer }
{
    match offer {
        Offer::Text(_) | Offer::Over | Offer::End | Offer::Nothing => false,
        Offer::Call(_) => w.wait == 0,
        Offer::Call3(to) => !offers::has_to_wait(other, w.wait, to),
    }
}

// Stand-by, with the own identities, and who is barred at the other end.
#[tactic(auto, unfolding(crate::specs::Places::of_stand_by))]
pub fn stand_by(
    w: Waiting,
    four: Identity,
    seven: Seven,
    other: Peer,
    b: Words,
    offer: Offer,
) -> Reason
    ensures { result ≡ of_stand_by w four seven other b offer }
{
    if calling::both_heard(w.heard, calling::call_of(four, b))
        || calling3::all_heard(w.heard3, calling3::call_of(seven, b))
    {
        Reason::Called
    } else if placed(w, other, offer) {
        Reason::CallOffered
    } else {
        Reason::Silent
    }
}

// A reason for which a call goes on, unless it was sent 128 times.
fn sent_out(sent: u8, reason: Reason) -> Reason
    ensures { result ≡ sent_out sent reason }
{
    if Station::CALLS <= sent {
        Reason::RunOut
    } else {
        reason
    }
}

// Whether the step before heard the control signal of the number.
fn marks(last: Mark, number: Number) -> bool
    ensures { result ≡ marks last number }
{
    match last {
        Mark::None => false,
        Mark::One => Number::One == number,
        Mark::Two => Number::Two == number,
    }
}

// Calling, which has heard `last` in the step before and has sent so many call bursts.
#[tactic(auto, unfolding(crate::specs::Places::of_calling))]
pub fn calling(last: Mark, sent: u8, first: u8) -> Reason
    ensures { result ≡ of_calling last sent first }
{
    match signal_of(first) {
        Signal::Cs(heard) if marks(last, heard) => Reason::Either,
        Signal::Cs(_) => sent_out(sent, Reason::Either),
        Signal::Cs3 => Reason::Cs3,
        Signal::Other => sent_out(sent, judged_one(first)),
    }
}

// Calling with three blocks. CS1 and CS2 answer calls of four signals alone, and are not named.
#[tactic(auto, using(crate::proofs::FirstLaws::calling_3_else), unfolding(crate::specs::Places::of_calling3, mode_a::specs::Heard::first_of, mode_a::specs::Heard::further_of))]
pub fn calling3(sent: u8, first: u8) -> Reason
    ensures { result ≡ of_calling3 sent first }
{
    match first {
        signals::CS3 => Reason::Cs3,
        signals::CS4 => Reason::Cs4,
        signals::CS5 => Reason::Cs5,
        _ => sent_out(sent, judged_one(first)),
    }
}

// Whether a wrong check-sum ends the call: the same one a second time, or behind four of them.
fn gives_up(i: Identified, letter: u8) -> bool
    ensures { result ≡ gives_up i letter }
{
    (1 <= i.wrong && letter == i.last) || Station::WRONGS <= i.wrong
}

// A letter where the check-sum `sum` is expected.
fn summed(late: bool, i: Identified, sum: u8, letter: u8) -> Reason
    ensures { result ≡ summing late i sum letter }
{
    if letter == sum {
        Reason::RightSum
    } else if gives_up(i, letter) {
        Reason::WrongSum
    } else {
        timed(late, Reason::WrongSum)
    }
}

// A stage that expects the check-sum `sum`: any letter of table 3b is a check-sum, right or wrong.
fn compared(late: bool, i: Identified, sum: u8, first: u8) -> Reason
    ensures { result ≡ comparing_by late i sum first (first_of first) }
{
    if identity::may_identify(first) {
        summed(late, i, sum, first)
    } else {
        unnamed(late, first)
    }
}

// The fourth stage, which expects CS1 or CS3.
#[tactic(auto, using(crate::proofs::FirstLaws::finishing_else), unfolding(mode_a::specs::Heard::first_of))]
fn finished(late: bool, first: u8) -> Reason
    ensures { result ≡ finishing_by late first (first_of first) }
{
    match first {
        signals::CS1 => Reason::Cs1,
        signals::CS3 => Reason::Cs3,
        _ => unnamed(late, first),
    }
}

// Identifying.
#[tactic(auto, unfolding(crate::specs::Places::of_identifying))]
pub fn identifying(late: bool, i: Identified, first: u8) -> Reason
    ensures { result ≡ of_identifying late i first }
{
    match i.stage {
        Stage::One => compared(late, i, i.to.check_sum_1(), first),
        Stage::Two => compared(late, i, i.to.check_sum_2(), first),
        Stage::Three => compared(late, i, i.to.check_sum_3(), first),
        Stage::Four => finished(late, first),
    }
}

// An identification block, by what it is to the stage.
fn told(late: bool, due: Due, b: Words) -> Reason
    ensures { result ≡ due_by late due (judged_all b) }
{
    match due {
        Due::Awaited => Reason::Told,
        Due::Before => timed(late, Reason::ToldAgain),
        Due::Neither => unnamed_all(late, b),
    }
}

// Answering that hears neither ααα nor the RQ RQ RQ that ends identification. What is no identification block is judged by its words.
fn gathered(late: bool, stage: Stage, b: Words) -> Reason
    ensures { result ≡ telling_by late stage (told_in b) (judged_all b) }
{
    let block = answering::told_in(b);
    let due = answering::due_at(stage, block);
    match block {
        Part::None => unnamed_all(late, b),
        Part::One | Part::Two | Part::Three => told(late, due, b),
    }
}

// Answering. RQ RQ RQ counts at the fourth stage.
#[tactic(auto, unfolding(crate::specs::Places::of_answering, mode_a::specs::Heard::is_words))]
pub fn answering(late: bool, stage: Stage, b: Words) -> Reason
    ensures { result ≡ of_answering late stage b }
{
    if b == mode_a::ALPHAS {
        Reason::Alphas
    } else if b == mode_a::RQS && stage.is_last() {
        Reason::Rq
    } else {
        gathered(late, stage, b)
    }
}

// What Identifying, the master's side of identification, does with what it hears (02, T-05; 001, 3.6.1 to 3.6.15). Which kind of burst it
// is, is told by `table`, and what the place carries by `carried`.
#![tactic(auto)]

ghost use Rattle.std.specs.Prelude.{◌≡◌};
ghost use Rattle.mode_a.specs.declared.Number.TheVariants.{One};
ghost use Rattle.mode_a.specs.declared.Place.TheVariants.{Identifying};
ghost use Rattle.mode_a.specs.declared.Doing.TheVariants.{Again};
ghost use Rattle.mode_a.specs.Identification.{identity_block};
ghost use Rattle.mode_a.specs.Heard.{Cs, Cs3, Else, Letter};
ghost use Rattle.mode_a.specs.Rows.{same_block, wrong_sum, comparing, identifying};
ghost use Rattle.carried.specs.Carried.{identified_in};

use identity::Seven;
use mode_a::{Doing, Ended, Identified, Number, Own, Peer, Place, Stage, Station, Words};

// The block that a stage sends, of the own identity: Y1 α Y2, α Y3 Y4, Y5 Y6 Y7, RQ RQ RQ (001, 3.6.2, 3.6.4, 3.6.6 and 3.6.8).
pub fn identity_block(own: Seven, stage: Stage) -> Words
    ensures { result ≡ identity_block own stage }
{
    match stage {
        Stage::One => Words(own.0, signals::ALPHA, own.1),
        Stage::Two => Words(signals::ALPHA, own.2, own.3),
        Stage::Three => Words(own.4, own.5, own.6),
        Stage::Four => mode_a::RQS,
    }
}

// The stage's block once more, with so many wrong check-sums counted, of which this is the last.
fn again(own: Seven, i: Identified, wrong: u8, last: u8) -> Doing
    ensures { result ≡ Again (Identifying (record { to = i.to; stage = i.stage; wrong = wrong; last = last })) (identity_block own i.stage) }
{
    Doing::Again(
        Place::Identifying(Identified { wrong, last, ..i }),
        identity_block(own, i.stage),
    )
}

// What the stage does not ask for, as a damaged answer or RQ: "retransmits the previous block" (3.6.13, 3.6.15). It is no wrong check-sum,
// and is counted as none.
fn same_block(own: Seven, i: Identified) -> Doing
    ensures { result ≡ same_block own i }
{
    again(own, i, i.wrong, i.last)
}

// A letter that is not the check-sum expected (3.6.12): the same wrong one a second time ends the circuit; else the block goes out again,
// four times at most, and then it is Stand-by. Where none was counted there is no last one to compare with.
fn wrong_sum(own: Seven, i: Identified, letter: u8) -> Doing
    ensures { result ≡ wrong_sum own i letter }
{
    if 1 <= i.wrong && letter == i.last {
        return Doing::Goes(
            Place::Ending(Ended {
                number: Number::Two,
                total: 1,
            }),
            mode_a::ALPHAS,
        );
    }
    if Station::WRONGS <= i.wrong {
        return Doing::Rests(0, mode_a::SILENCE);
    }
    again(own, i, i.wrong + 1, letter)
}

// A letter where the check-sum `sum` is expected, which leads to the stage `next` (3.6.3 to 3.6.8). Wrong ones are counted for each block.
fn compare(own: Seven, i: Identified, letter: u8, sum: u8, next: Stage) -> Doing
    ensures { result ≡ comparing own i sum next (Else (Letter letter)) }
{
    if letter == sum {
        Doing::Goes(
            Place::Identifying(Identified {
                to: i.to,
                stage: next,
                wrong: 0,
                last: 0,
            }),
            identity_block(own, next),
        )
    } else {
        wrong_sum(own, i, letter)
    }
}

// Identifying that hears a letter of table 3b first: each of three stages expects a check-sum of the identity called, and the fourth none.
pub fn compared(place: Place, own: Own, letter: u8) -> Doing
    ensures { result ≡ identifying own.seven (identified_in place) (Else (Letter letter)) }
{
    let i = carried::identified_in(place);
    match i.stage {
        Stage::One => compare(own.seven, i, letter, i.to.check_sum_1(), Stage::Two),
        Stage::Two => compare(own.seven, i, letter, i.to.check_sum_2(), Stage::Three),
        Stage::Three => compare(own.seven, i, letter, i.to.check_sum_3(), Stage::Four),
        Stage::Four => same_block(own.seven, i),
    }
}

// Identifying that hears what no stage asks for.
pub fn block_again(place: Place, own: Own) -> Doing
    ensures { result ≡ same_block own.seven (identified_in place) }
{
    same_block(own.seven, carried::identified_in(place))
}

// Identifying that hears CS1 first: at the fourth stage traffic begins, with block 1 (3.6.10).
pub fn taken_if_last(place: Place, own: Own) -> Doing
    ensures { result ≡ identifying own.seven (identified_in place) (Cs One) }
{
    let i = carried::identified_in(place);
    if i.stage.is_last() {
        Doing::Reaches(Peer::Known(i.to), Number::One)
    } else {
        same_block(own.seven, i)
    }
}

// Identifying that hears CS3 first: at the fourth stage traffic begins with the change-over (3.6.11).
pub fn turned_if_last(place: Place, own: Own) -> Doing
    ensures { result ≡ identifying own.seven (identified_in place) Cs3 }
{
    let i = carried::identified_in(place);
    if i.stage.is_last() {
        Doing::Turns(i.to)
    } else {
        same_block(own.seven, i)
    }
}

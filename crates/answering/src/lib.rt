// What Answering, the slave's side of identification, does with the blocks that it hears (02, T-05; 001, 3.6.3 to 3.6.16). That a burst is
// RQ RQ RQ or ααα is told by `table`, and what the place carries by `carried`.
#![tactic(auto)]

ghost use Rattle.std.specs.Prelude.{◌≡◌, if◌then◌else◌};
ghost use Rattle.signals.specs.Meaning.{rq};
ghost use Rattle.identity.specs.Sums.{same_seven};
ghost use Rattle.mode_a.specs.declared.Doing.TheVariants.{Meets};
ghost use Rattle.mode_a.specs.Identification.{told_in};
ghost use Rattle.mode_a.specs.Rows.{hearing, is_last};
ghost use Rattle.carried.specs.Carried.{gathered_in};
ghost use Rattle.answering.specs.Blocks.{told_as, with_block, sum_of, behind, asks, IsDue};

use identity::Seven;
use mode_a::{Doing, Gathered, Own, Part, Place, Stage, Words};

// Which identification block a burst is, if any: X α X, α X X or X X X, each X of table 3a. All three end with a letter, and no burst is
// two of them, since α is no letter.
#[tactic(auto, unfolding(mode_a::specs::Identification::told_in))]
pub fn told_in(b: Words) -> Part
    ensures { told_as result b ≡ told_in b }
{
    if !identity::may_identify(b.2) {
        return Part::None;
    }
    let first = identity::may_identify(b.0);
    if first & (b.1 == signals::ALPHA) {
        return Part::One;
    }
    let second = identity::may_identify(b.1);
    if (b.0 == signals::ALPHA) & second {
        return Part::Two;
    }
    if first & second {
        return Part::Three;
    }
    Part::None
}

// What a block is to a stage.
#[derive(Clone, Copy)]
pub enum Due {
    // the one that it awaits
    Awaited,
    // the one that led to it, sent again
    Before,
    Neither,
}

pub fn due_at(stage: Stage, block: Part) -> Due
    ensures { IsDue stage block result }
{
    match (stage, block) {
        (Stage::One, Part::One) => Due::Awaited, // nothing is gathered yet, so that no block can be sent again
        (Stage::Two, Part::One) => Due::Before,
        (Stage::Two, Part::Two) => Due::Awaited,
        (Stage::Three, Part::Two) => Due::Before,
        (Stage::Three, Part::Three) => Due::Awaited,
        (Stage::Four, Part::Three) => Due::Before,
        _ => Due::Neither,
    }
}

// The signals gathered, with those of the block in their places.
fn with_block(got: Seven, block: Part, b: Words) -> Seven
    ensures { result ≡ with_block block got b }
{
    match block {
        Part::None => got,
        Part::One => Seven(b.0, b.2, got.2, got.3, got.4, got.5, got.6),
        Part::Two => Seven(got.0, got.1, b.1, b.2, got.4, got.5, got.6),
        Part::Three => Seven(got.0, got.1, got.2, got.3, b.0, b.1, b.2),
    }
}

// The check-sum signal that confirms a block. It is of the own identity, which the master has called, and not of the master's.
fn sum_of(block: Part, own: Seven) -> u8
    ensures { result ≡ sum_of block own }
{
    match block {
        Part::None => signals::RQ,
        Part::One => own.check_sum_1(),
        Part::Two => own.check_sum_2(),
        Part::Three => own.check_sum_3(),
    }
}

// The stage that a block leads to.
fn behind(block: Part) -> Stage
    ensures { result ≡ behind block }
{
    match block {
        Part::None => Stage::One,
        Part::One => Stage::Two,
        Part::Two => Stage::Three,
        Part::Three => Stage::Four,
    }
}

// How a stage asks for its block: CS4 "until identification block 1 has been received" (3.5.5), and then RQ (3.6.14).
fn asks(stage: Stage) -> u8
    ensures { result ≡ asks stage }
{
    match stage {
        Stage::One => signals::CS4,
        _ => signals::RQ,
    }
}

// The block that led to this stage, sent again: the check-sum once more where its letters are those gathered (3.6.12), else RQ until two in a
// row are the same (3.6.16).
#[tactic(auto, unfolding(identity::specs::Sums::same_seven))]
fn confirms(own: Seven, got: Seven, now: Seven, block: Part) -> u8
    ensures { result ≡ (if same_seven got now then sum_of block own else rq) }
{
    if got == now {
        sum_of(block, own)
    } else {
        signals::RQ
    }
}

// What is done with a burst by the block that it is, if any. Both callers hand over the burst's words as a burst of their own: handed on as it
// is, the burst that a step hears would have to lie in memory at every step.
fn hear(own: Seven, g: Gathered, b: Words) -> Doing
    ensures { result ≡ hearing own g.got g.stage (told_in b) }
{
    let block = told_in(b);
    let now = with_block(g.got, block, b);
    match due_at(g.stage, block) {
        Due::Awaited => Doing::Goes(
            Place::Answering(Gathered {
                stage: behind(block),
                got: now,
            }),
            Words(sum_of(block, own), 0, 0),
        ),
        Due::Before => Doing::Again(
            Place::Answering(Gathered { got: now, ..g }),
            Words(confirms(own, g.got, now, block), 0, 0),
        ),
        Due::Neither => Doing::Again(Place::Answering(g), Words(asks(g.stage), 0, 0)),
    }
}

// Answering that hears neither ααα nor RQ RQ RQ.
pub fn gathered(place: Place, own: Own, burst: Words) -> Doing
    ensures { result ≡ hearing own.seven (gathered_in place).got (gathered_in place).stage (told_in burst) }
{
    hear(
        own.seven,
        carried::gathered_in(place),
        Words(burst.0, burst.1, burst.2),
    )
}

// Answering that hears RQ RQ RQ, the block that ends identification (3.6.9): before the fourth stage it is a block that is not awaited.
pub fn met_if_last(place: Place, own: Own, burst: Words) -> Doing
    ensures { result ≡ (if is_last (gathered_in place).stage then Meets (gathered_in place).got else hearing own.seven (gathered_in place).got (gathered_in place).stage (told_in burst)) }
{
    let g = carried::gathered_in(place);
    if g.stage.is_last() {
        Doing::Meets(g.got)
    } else {
        hear(own.seven, g, Words(burst.0, burst.1, burst.2))
    }
}

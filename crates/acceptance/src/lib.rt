// What is answered to an accepted block (01, The station; 02, T-06): the case and the + that are kept of it, whether the over, and whether D
// in figures, was heard in it, the signals that are printed, and what is asked for next.
#![tactic(auto)]

ghost use Rattle.std.specs.Prelude.{◌≡◌};
ghost use Rattle.mode_a.specs.Over.{signal_in, listened, listened_all};
ghost use Rattle.mode_a.specs.Step.{traffic_in, is_over, owed_for, is_asked, accepts};
ghost use Rattle.acceptance.specs.Parts.{prepended};

use mode_a::{Listening, Number, Offer, Owed, Place, Reply, Station, Words};
use signals::Case;

// The words of + (Z) and of ? (B).
pub const CROSS: u8 = 99;

pub const QUERY: u8 = 114;

// Who are you: the word of D, in figures.
const WHO: u8 = 83;

// One signal that is neither β nor a shift (01: "The over is heard when ..").
fn signal_in(l: Listening, word: u8) -> Listening
    ensures { result ≡ signal_in l.case l.plus l.over l.asked word }
{
    match (l.case, word) {
        (Case::Figures, CROSS) => Listening { plus: true, ..l },
        (Case::Figures, QUERY) => Listening {
            plus: false,
            over: l.over || l.plus,
            ..l
        },
        (Case::Figures, WHO) => Listening {
            plus: false,
            asked: true,
            ..l
        },
        // in letters case D is a letter, and asks nothing
        _ => Listening { plus: false, ..l },
    }
}

#[tactic(auto, unfolding(mode_a::specs::Over::listened))]
fn listened(l: Listening, word: u8) -> Listening
    ensures { result ≡ listened l word }
{
    match word {
        signals::BETA => l,
        signals::LETTERS => Listening {
            case: Case::Letters,
            plus: false,
            ..l
        },
        signals::FIGURES => Listening {
            case: Case::Figures,
            plus: false,
            ..l
        },
        _ => signal_in(l, word),
    }
}

// A block, from what the station has kept.
pub fn listened_all(case: Case, plus: bool, b: Words) -> Listening
    ensures { result ≡ listened_all case plus b }
{
    let before = Listening {
        case,
        plus,
        over: false,
        asked: false,
    };
    listened(listened(listened(before, b.0), b.1), b.2)
}

// The signal before the others, unless it is β.
fn prepended(signal: u8, rest: Words) -> Words
    ensures { result ≡ prepended signal rest }
{
    if signal == signals::BETA {
        rest
    } else {
        Words(signal, rest.0, rest.1)
    }
}

// The traffic signals of a block, in order, with 0 behind them.
#[tactic(auto, unfolding(mode_a::specs::Step::traffic_in))]
fn traffic_in(b: Words) -> Words
    ensures { result ≡ traffic_in b }
{
    prepended(b.0, prepended(b.1, prepended(b.2, mode_a::SILENCE)))
}

// Whether over is offered.
pub fn is_over(offer: Offer) -> bool
    ensures { result ≡ is_over offer }
{
    matches!(offer, Offer::Over)
}

// What is owed behind a block with D in figures: the direction is kept where the over was heard in the same block.
fn owed_for(l: Listening) -> Owed
    ensures { result ≡ owed_for l }
{
    if l.over { Owed::Keep(0) } else { Owed::Back(0) }
}

// D stood in figures in the block: CS3 turns the direction, the answer-back is owed, and no offer is taken, an over neither.
fn is_asked(s: Station, b: Words, l: Listening) -> Reply
    ensures { result ≡ is_asked s b l }
{
    Reply {
        station: stands::asked_at(s, Place::Asking, l, owed_for(l)),
        sent: Words(signals::CS3, 0, 0),
        printed: traffic_in(b),
        taken: false,
    }
}

// The block that has the awaited number is accepted.
pub fn accepts(s: Station, number: Number, b: Words, offer: Offer) -> Reply
    ensures { result ≡ accepts s number b offer }
{
    let l = listened_all(s.case, s.plus, b);
    if l.asked {
        return is_asked(s, b, l);
    }
    let taken = is_over(offer);
    if taken || l.over {
        return Reply {
            station: stands::heard_at(s, Place::Asking, l),
            sent: Words(signals::CS3, 0, 0),
            printed: traffic_in(b),
            taken,
        };
    }
    let next = number.other();
    Reply {
        station: stands::heard_at(s, Place::Receiving(next), l),
        sent: next.asks(),
        printed: traffic_in(b),
        taken: false,
    }
}

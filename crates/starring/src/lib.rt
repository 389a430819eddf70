// Why a receiver of mode B prints an error mark (02, T-08).
#![tactic(auto)]

ghost use Rattle.std.specs.Prelude.{◌≡◌};
ghost use Rattle.reasons.specs.Stars.{settles, star_of, star_at, Stars};

use mode_b::{Hearing, Receiver};
use reasons::{Star, StarError};

// The error to which two copies settle. RQ then α, good and unlike, is phasing and none.
#[tactic(auto, unfolding(reasons::specs::Stars::star_of))]
fn star_of(dx: u8, rx: u8) -> Option<Star>
    ensures { result ≡ star_of dx rx }
{
    match (signals::intact(dx), signals::intact(rx)) {
        (false, false) => Some(Star::BothBad(dx, rx)),
        (true, true) if dx == rx => None,
        (true, true) if dx == signals::RQ && rx == signals::ALPHA => None,
        (true, true) => Some(Star::Unlike(dx, rx)),
        (true, false) | (false, true) => None,
    }
}

// Before printing has begun an error prints nothing, and has no reason.
fn star_at(printing: bool, dx: u8, rx: u8) -> Option<Star>
    ensures { result ≡ star_at (settles dx printing) rx }
{
    if printing { star_of(dx, rx) } else { None }
}

// Why a receiver of mode B prints an error mark at a word (02, T-08): both copies of the position that this word settles are bad, or both
// good and unlike, with its DX and its RX word; `None` where it prints none. Refuses 4 for a search run or a remaining wait over 3, and
// nothing else.
#[tactic(auto, unfolding(reasons::specs::Stars::starring))]
pub fn star(receiver: Receiver, word: u8) -> Result<Option<Star>, StarError>
    ensures { Stars receiver word result }
{
    match receiver.hearing {
        Hearing::Searching(run, _) if run <= 3 => Ok(None),
        Hearing::InPhase(p) if p.dx => Ok(None),
        Hearing::InPhase(p) => Ok(star_at(p.printing, p.first, word)),
        Hearing::Waiting(v) if v.left == 3 => Ok(star_at(v.printing, v.word, word)),
        Hearing::Waiting(v) if v.left < 3 => Ok(None),
        Hearing::Searching(_, _) | Hearing::Waiting(_) => Err(StarError::BadReceiver),
    }
}

// Why a station of mode A answers as it does (02, T-08: "Why did it ask again?").
#![tactic(auto)]

ghost use Rattle.std.specs.Prelude.{◌≡◌, leb};
ghost use Rattle.reasons.specs.Reasons.{reason_of, Explains};

use mode_a::{Offer, Place, Refusal, Station, Words};
use reasons::Reason;

// Whether one more repetition is the 32nd.
fn late(count: u8) -> bool
    ensures { result ≡ leb 31 count }
{
    Station::LIMIT - 1 <= count
}

// The reason at the station's place.
fn reason(s: Station, burst: Words, offer: Offer) -> Reason
    ensures { result ≡ reason_of s burst offer }
{
    let late = late(s.count);
    let place = s.place;
    match place {
        Place::Sending(held) => {
            let number = held.number;
            naming::sending(number, late, burst.0)
        }
        Place::Turning(_) => {
            let role = s.role;
            naming::turning(role, late, burst)
        }
        Place::Opening => naming::opening(late, burst.0),
        Place::Ending(ended) => {
            let number = ended.number;
            naming::ending(number, burst.0)
        }
        Place::Receiving(_) => {
            let case = s.case;
            naming::receiving(late, case, s.plus, burst, acceptance::is_over(offer))
        }
        Place::Asking => naming::asking(late, burst),
        Place::StandBy(w) => {
            let own = s.own;
            let four = own.four;
            let seven = own.seven;
            let other = s.other;
            naming::stand_by(w, four, seven, other, burst, offer)
        }
        Place::Lost => Reason::Silent,
        Place::Calling(called) => {
            let last = called.last;
            naming::calling(last, called.sent, burst.0)
        }
        Place::Calling3(called) => naming::calling3(called.sent, burst.0),
        Place::Identifying(i) => naming::identifying(late, i, burst.0),
        Place::Answering(gathered) => {
            let stage = gathered.stage;
            naming::answering(late, stage, burst)
        }
    }
}

// The reason for a station's answer to `burst`, with `offer` (02, T-08): the first of 02's list that holds. Refuses 8, then 4, then 9, then 3,
// where the step of the same station, burst and offer is refused, by the same number and with the same value.
#[tactic(auto, using(crate::proofs::RefusalLaws::refused_lem, crate::proofs::RefusalLaws::by_call, crate::proofs::RefusalLaws::by_station, crate::proofs::RefusalLaws::by_code, crate::proofs::RefusalLaws::by_word))]
pub fn why(s: Station, burst: Words, offer: Offer) -> Result<Reason, Refusal>
    ensures { Explains s burst offer result }
{
    refusals::judged(s, offer)?;
    Ok(reason(s, burst, offer))
}

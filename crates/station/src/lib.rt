// One station of mode A: the step (01, The station; 02, T-02, T-05 and T-06; 001, 3.3 to 3.7).
#![tactic(auto)]

ghost use Rattle.std.specs.Prelude.{◌≡◌};
ghost use Rattle.mode_a.specs.Step.{Steps};
ghost use Rattle.refusals.specs.Judging.{Judges};

use mode_a::{Offer, Refusal, Refused, Reply, Station, Words};

// What a step that is refused answers: the same station, and why.
fn refused(s: Station, why: Refusal) -> Refused
    ensures station { result.station ≡ s }
    ensures reason { result.why ≡ why }
{
    Refused { station: s, why }
}

// What is refused of a step, judged of this very station and offer.
fn judged(s: Station, offer: Offer) -> Result<(), Refusal>
    ensures { Judges s offer result }
{
    refusals::judged(s, offer)
}

// One step of a station (01, The station; 02, T-02, T-05 and T-06; 001, 3.3 to 3.7): it hears `burst`, may take `offer`, and answers the new
// station, the burst to send, up to three printed signals, and whether the offer was taken. Refuses 8, then 4, then 9, then 3, with the same
// station and nothing sent (01, Numbers returned).
pub fn step(s: Station, burst: Words, offer: Offer) -> Result<Reply, Refused>
    ensures { Steps s burst offer result }
{
    // KEPT: with `map_err` and `?` the goal `returns-in_err-map_err` stayed open
    if let Err(why) = judged(s, offer) {
        return Err(refused(s, why));
    }
    let role = s.role;
    let place = s.place;
    let action = table::action_at(place, table::kind_of(burst));
    // read behind the table: before it, the own identities would be copied twice
    let own = s.own;
    let doing = doings::doing(action, role, place, own, burst);
    Ok(replies::done(s, burst, offer, doing))
}

// An entry of a record is told (02, T-07): what is wrong with it, what it says, the damage on a burst, and whose burst is on the way and
// which offers stand.
#![tactic(auto)]

ghost use Rattle.std.specs.Prelude.{◌≡◌, eqb, ltb, if◌then◌else◌};
ghost use Rattle.signals.specs.Damage.{arrives};
ghost use Rattle.signals.specs.Numbers.{first_not};
ghost use Rattle.mode_a.specs.Station.{words, list_of};
ghost use Rattle.mode_a.specs.Heard.{may_hold};
ghost use Rattle.entries.specs.Passage.{begins, offer_to, offering, hearing, damage_to, stands, fault_of};
ghost use Rattle.telling.specs.Telling.{number_of, BurstFault, offer_fault, told_by, Leaves};

use entries::{Entry, Standing};
use mode_a::{Offer, Role, Words};

// What is wrong with an entry.
#[derive(Clone, Copy, PartialEq, Eq)]
pub enum Fault {
    // 12: a burst out of turn, or bits 3 to 7 set
    BadBurst,
    // 13: an offer before that station's last was taken
    StillOffered,
    // 3: a word of a text offer neither traffic nor β
    BadWord,
}

// What an entry says: the burst on the way is heard with this damage; or this is offered to that station.
#[derive(Clone, Copy)]
pub enum Told {
    Burst(u8),
    Offer(Role, Offer),
}

// The slave's burst is on the way, and no offer stands.
pub fn first() -> Standing
    ensures { result ≡ begins.standing }
{
    Standing {
        turn: Role::Slave,
        master: Offer::Nothing,
        slave: Offer::Nothing,
    }
}

// The station that hears the burst on the way.
pub fn hearing(standing: Standing) -> Role
    ensures { result ≡ hearing standing }
{
    entries::other(standing.turn)
}

// Whether an offer stands.
fn stands(offer: Offer) -> bool
    ensures { result ≡ stands offer }
{
    !matches!(offer, Offer::Nothing)
}

// The offer that stands for a station.
pub fn offer_to(standing: Standing, role: Role) -> Offer
    ensures { result ≡ offer_to standing role }
{
    match role {
        Role::Master => standing.master,
        Role::Slave => standing.slave,
    }
}

// With this offer to this station.
pub fn offered(standing: Standing, role: Role, offer: Offer) -> Standing
    ensures { result ≡ offering standing role offer }
{
    match role {
        Role::Master => Standing {
            master: offer,
            ..standing
        },
        Role::Slave => Standing {
            slave: offer,
            ..standing
        },
    }
}

// After a burst was heard: the other's is on the way, and what was taken is offered no longer.
pub fn turned(standing: Standing, taken: bool) -> Standing
    ensures { Leaves standing taken result }
{
    let hearer = hearing(standing);
    let left = if taken {
        offered(standing, hearer, Offer::Nothing)
    } else {
        standing
    };
    Standing {
        turn: hearer,
        ..left
    }
}

// Whether an offer stands for a station.
fn still(standing: Standing, role: Role) -> bool
    ensures { result ≡ stands (offer_to standing role) }
{
    stands(offer_to(standing, role))
}

// A burst: 12 where it is not this station's turn, or a bit is set that is no word's.
fn burst_fault(turn: Role, role: Role, damage: u8) -> Result<(), Fault>
    ensures { BurstFault turn role damage result }
{
    if !entries::same(role, turn) || 7 < damage {
        return Err(Fault::BadBurst);
    }
    Ok(())
}

// Whether a word of a text offer is neither traffic nor β.
#[tactic(auto, unfolding(signals::specs::Numbers::first_not))]
fn bad_word(text: Words) -> bool
    ensures { result ≡ ltb (first_not may_hold (list_of text)) 3 }
{
    !(mode_a::may_hold(text.0) && mode_a::may_hold(text.1) && mode_a::may_hold(text.2))
}

// An offer: 13 where one stands already, and then 3.
fn offer_fault(still: bool, bad: bool) -> Result<(), Fault>
    ensures { number_of result ≡ offer_fault still bad }
{
    if still {
        return Err(Fault::StillOffered);
    }
    if bad {
        return Err(Fault::BadWord);
    }
    Ok(())
}

// What is wrong with an entry, where anything is: 12, or 13 and then 3.
pub fn fault_of(standing: Standing, entry: Entry) -> Result<(), Fault>
    ensures { number_of result ≡ fault_of standing entry }
{
    match entry {
        Entry::Burst(role, damage) => burst_fault(standing.turn, role, damage),
        Entry::Text(role, text) => offer_fault(still(standing, role), bad_word(text)),
        Entry::Over(role) | Entry::End(role) => offer_fault(still(standing, role), false),
    }
}

// What an entry says.
pub fn says(entry: Entry) -> Told
    ensures { result ≡ told_by entry }
{
    match entry {
        Entry::Burst(_, damage) => Told::Burst(damage),
        Entry::Text(role, text) => Told::Offer(role, Offer::Text(text)),
        Entry::Over(role) => Told::Offer(role, Offer::Over),
        Entry::End(role) => Told::Offer(role, Offer::End),
    }
}

// A word as it is heard: a damaged one is heard as 0.
fn arrived(word: u8, hurt: u8) -> u8
    ensures { result ≡ (if eqb hurt 0 then word else 0) }
{
    if hurt == 0 { word } else { 0 }
}

// The burst as it is heard: bit i of the damage byte is word i.
pub fn damaged(burst: Words, damage: u8) -> Words
    ensures { result ≡ words (arrives (damage_to damage 0) burst.0) (arrives (damage_to damage 1) burst.1) (arrives (damage_to damage 2) burst.2) }
{
    Words(
        arrived(burst.0, damage & 1),
        arrived(burst.1, damage & 2),
        arrived(burst.2, damage & 4),
    )
}

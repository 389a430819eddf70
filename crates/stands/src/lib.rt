// How a station stands after a step (01, The station; 02, T-02, T-05 and T-06): at which place, with which count, case and +, who is at the
// other end, and what is owed of an answer-back; and a repetition, which the count is for. What no step changes, the own identities and the
// code, is handed on as one piece.
#![tactic(auto)]

ghost use Rattle.std.specs.Prelude.{◌≡◌};
ghost use Rattle.mode_a.specs.Step.{moved_to, cancelled_to, heard_at, left_at, wait_at, rested, begun, knowing, owing, sends, repeats, again};

use mode_a::{
    Listening, Mark, Owed, Peer, Place, Reply, Role, Station, Succession, Waiting, Words,
};
use signals::Case;

// The station at another place, with count 0.
pub fn moved_to(s: Station, place: Place) -> Station
    ensures { result ≡ moved_to s place }
{
    Station {
        place,
        count: 0,
        ..s
    }
}

// The same, with no + heard any more.
pub fn cancelled_to(s: Station, place: Place) -> Station
    ensures { result ≡ cancelled_to s place }
{
    Station {
        place,
        count: 0,
        plus: false,
        ..s
    }
}

// The same, with what is kept of an accepted block.
pub fn heard_at(s: Station, place: Place, l: Listening) -> Station
    ensures { result ≡ heard_at s place l }
{
    Station {
        place,
        count: 0,
        case: l.case,
        plus: l.plus,
        ..s
    }
}

// The station at another place, with count 0; this is owed of an answer-back.
pub fn owing_at(s: Station, place: Place, owed: Owed) -> Station
    ensures { result ≡ moved_to (owing s owed) place }
{
    Station {
        place,
        count: 0,
        owed,
        ..s
    }
}

// The same, with what is kept of an accepted block.
pub fn asked_at(s: Station, place: Place, l: Listening, owed: Owed) -> Station
    ensures { result ≡ owing (heard_at s place l) owed }
{
    Station {
        owed,
        ..heard_at(s, place, l)
    }
}

// Who is at the other end of a station that goes to Stand-by: nobody, but an identity that is barred stays so.
fn left_at(other: Peer) -> Peer
    ensures { result ≡ left_at other }
{
    match other {
        Peer::Barred(_) => other,
        _ => Peer::Nobody,
    }
}

// How many steps it waits there: the 128 where an identity is barred.
fn wait_at(other: Peer, wait: u8) -> u8
    ensures { result ≡ wait_at other wait }
{
    match other {
        Peer::Barred(_) => Station::CALLS,
        _ => wait,
    }
}

// The station at Stand-by, with so many steps to wait and nobody at the other end; or with an identity barred, and the steps of that.
pub fn rested(s: Station, wait: u8) -> Station
    ensures { result ≡ rested s wait }
{
    Station {
        place: Place::StandBy(Waiting {
            wait: wait_at(s.other, wait),
            heard: Mark::None,
            heard3: Succession::None,
        }),
        count: 0,
        other: left_at(s.other),
        owed: Owed::Nothing,
        ..s
    }
}

// The station that places or answers a call: in letters case, with no + heard, nobody at the other end and nothing owed.
pub fn begun(s: Station, role: Role, place: Place) -> Station
    ensures { result ≡ begun s role place }
{
    Station {
        role,
        place,
        count: 0,
        case: Case::Letters,
        plus: false,
        own: s.own,
        other: Peer::Nobody,
        owed: Owed::Nothing,
    }
}

// The same station, this being at the other end.
pub fn knowing(s: Station, other: Peer) -> Station
    ensures { result ≡ knowing s other }
{
    Station { other, ..s }
}

// An answer that prints nothing and takes no offer.
pub fn sends(station: Station, words: Words) -> Reply
    ensures { result ≡ sends station words }
{
    Reply {
        station,
        sent: words,
        printed: mode_a::SILENCE,
        taken: false,
    }
}

// A repetition: the 32nd makes the station Lost.
pub fn repeats(s: Station, words: Words) -> Reply
    ensures { result ≡ repeats s words }
{
    if Station::LIMIT - 1 <= s.count {
        return sends(moved_to(s, Place::Lost), mode_a::SILENCE);
    }
    sends(
        Station {
            count: s.count + 1,
            ..s
        },
        words,
    )
}

// A repetition in identification, at the same place, standing so: the 32nd leads to Stand-by.
pub fn again(s: Station, place: Place, words: Words) -> Reply
    ensures { result ≡ again s place words }
{
    if Station::LIMIT - 1 <= s.count {
        return sends(rested(s, 0), mode_a::SILENCE);
    }
    sends(
        Station {
            place,
            count: s.count + 1,
            ..s
        },
        words,
    )
}

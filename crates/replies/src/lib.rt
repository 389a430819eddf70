// What a station answers by what its row says to do: the new station, the burst to send, up to three printed signals, and whether the
// offer was taken (01, The station; 02, T-02, T-05 and T-06; 001, 3.5 to 3.7). Which of these is done is told by `table` and `doings`; refusals
// stand in `station`.
#![tactic(auto)]

ghost use Rattle.std.specs.Prelude.{◌≡◌};
ghost use Rattle.mode_a.specs.declared.Number.TheVariants.{One};
ghost use Rattle.mode_a.specs.declared.Owed.{Owed};
ghost use Rattle.mode_a.specs.declared.Place.TheVariants.{Turning, Opening, Receiving};
ghost use Rattle.mode_a.specs.declared.Role.TheVariants.{Slave};
ghost use Rattle.mode_a.specs.Station.{βαβ, asks_for};
ghost use Rattle.mode_a.specs.Rows.{requests};
ghost use Rattle.mode_a.specs.Step.{moved_to, cancelled_to, sends, takes, rested, begun, knowing, owing, done};

use mode_a::{Doing, Number, Offer, Owed, Peer, Place, Reply, Role, Station, Words};

fn goes(s: Station, place: Place, words: Words) -> Reply
    ensures { result ≡ sends (moved_to s place) words }
{
    stands::sends(stands::moved_to(s, place), words)
}

fn receives(s: Station, number: Number) -> Reply
    ensures { result ≡ sends (cancelled_to s (Receiving number)) (asks_for number) }
{
    stands::sends(
        stands::cancelled_to(s, Place::Receiving(number)),
        number.asks(),
    )
}

fn opens(s: Station) -> Reply
    ensures { result ≡ sends (cancelled_to s Opening) (requests s.role) }
{
    let role = s.role;
    stands::sends(
        stands::cancelled_to(s, Place::Opening),
        moves::requests(role),
    )
}

fn rests(s: Station, wait: u8, words: Words) -> Reply
    ensures { result ≡ sends (rested s wait) words }
{
    stands::sends(stands::rested(s, wait), words)
}

// The call is answered: CS1, and block 1 is awaited.
fn answers(s: Station) -> Reply
    ensures { result ≡ sends (begun s Slave (Receiving One)) (asks_for One) }
{
    let one = Number::One;
    stands::sends(
        stands::begun(s, Role::Slave, Place::Receiving(one)),
        one.asks(),
    )
}

// The direction turns, and what is owed of an answer-back is dropped.
fn yields(s: Station, number: Number) -> Reply
    ensures { result ≡ sends (moved_to (owing s Owed.Nothing) (Turning number)) βαβ }
{
    stands::sends(
        stands::owing_at(s, Place::Turning(number), Owed::Nothing),
        mode_a::TURN,
    )
}

// Who is at the other end is known, and the offer is taken.
fn reaches(s: Station, other: Peer, number: Number, offer: Offer) -> Reply
    ensures { result ≡ takes (knowing s other) number offer }
{
    let next = offers::next(s, offer);
    offers::takes(stands::knowing(s, other), number, next)
}

// The answer of the station `s` that hears the burst `b` and is offered `offer`. It refuses nothing: `station::step` judges before.
pub fn done(s: Station, b: Words, offer: Offer, doing: Doing) -> Reply
    ensures { result ≡ done s b offer doing }
{
    match doing {
        Doing::Repeats(words) => stands::repeats(s, words),
        Doing::Goes(place, words) => goes(s, place, words),
        Doing::Takes(number) => offers::takes(s, number, offers::next(s, offer)),
        Doing::Receives(number) => receives(s, number),
        Doing::Opens => opens(s),
        Doing::Accepts(number) => acceptance::accepts(s, number, b, offer),
        Doing::Rests(wait, words) => rests(s, wait, words),
        Doing::Answers => answers(s),
        Doing::Listens(waiting) => offers::listens(s, waiting, offer),
        Doing::Reaches(other, number) => reaches(s, other, number, offer),
        Doing::Answers3 => meeting::answers3(s),
        Doing::Bars(to) => meeting::bars(s, to),
        Doing::Ends(to) => meeting::ends(s, to),
        Doing::Turns(to) => meeting::turns(s, to),
        Doing::Meets(got) => meeting::meets(s, got, offer),
        Doing::Again(place, words) => stands::again(s, place, words),
        Doing::Yields(number) => yields(s, number),
    }
}

// What becomes of the offer (01, The station; 02, T-02, T-05 and T-06): a row takes it under a number, or the next block of an answer-back
// that is owed, or Stand-by places the call that is offered.
#![tactic(auto)]

ghost use Rattle.std.specs.Prelude.{◌≡◌, ◌&&◌, ◌-◌, leb};
ghost use Rattle.mode_a.specs.Step.{takes_offer, called, called3, waits_on, bars, listens};
ghost use Rattle.offers.specs.Goes.{block_offered, next_offered, next_owed, next_of, takes_next};

use identity::Seven;
use mode_a::{
    Called, Called3, Code, Ended, Held, Identity, Mark, Number, Offer, Owed, Peer, Place, Reply,
    Role, Station, Waiting, Words,
};

// What over and nothing put into a block.
const OVER: Words = Words(signals::FIGURES, acceptance::CROSS, acceptance::QUERY);

const BETAS: Words = Words(signals::BETA, signals::BETA, signals::BETA);

// What goes next: the block that is held and sent, whether the offer is taken, and what is owed behind it; or the end, and then nothing
// else of it is looked at.
#[derive(Clone, Copy)]
pub struct Going {
    pub block: Words,
    pub taken: bool,
    pub ends: bool,
    pub behind: Owed,
}

// End is taken under the number: ααα is sent, once so far.
fn ends(s: Station, number: Number) -> Reply
    ensures { result ≡ takes_offer s number Offer.End }
{
    Reply {
        station: stands::moved_to(s, Place::Ending(Ended { number, total: 1 })),
        sent: mode_a::ALPHAS,
        printed: mode_a::SILENCE,
        taken: true,
    }
}

// A block of the offer: nothing is owed behind it.
fn block_offered(block: Words, taken: bool) -> Going
    ensures { result ≡ block_offered block taken }
{
    Going {
        block,
        taken,
        ends: false,
        behind: Owed::Nothing,
    }
}

// The offer goes. A call is not taken: βββ is sent, as where nothing is offered.
fn next_offered(offer: Offer) -> Going
    ensures { result ≡ next_offered offer }
{
    match offer {
        Offer::Text(block) => block_offered(block, true),
        Offer::Over => block_offered(OVER, true),
        Offer::End => Going {
            block: BETAS,
            taken: true,
            ends: true,
            behind: Owed::Nothing,
        },
        Offer::Nothing => block_offered(BETAS, true),
        Offer::Call(_) => block_offered(BETAS, false),
        Offer::Call3(_) => block_offered(BETAS, false),
    }
}

// The next block of the answer-back goes, and the offer waits.
fn next_owed(code: Code, owed: Owed) -> Going
    ensures { result ≡ next_owed code owed }
{
    Going {
        block: owed::block(code, owed),
        taken: false,
        ends: false,
        behind: owed::then(code, owed),
    }
}

// What is owed goes before the offer. It is told apart from `takes`: each of the two is small enough for the compiler to put it into both its
// callers, so that no answer is built in memory and copied.
pub fn next(s: Station, offer: Offer) -> Going
    ensures { result ≡ next_of s.own.code s.owed offer }
{
    match s.owed {
        Owed::Nothing => next_offered(offer),
        owed => next_owed(s.own.code, owed),
    }
}

// What goes next is taken under the number.
pub fn takes(s: Station, number: Number, next: Going) -> Reply
    ensures { result ≡ takes_next s number next }
{
    if next.ends {
        return ends(s, number);
    }
    let held = Held {
        number,
        block: next.block,
    };
    Reply {
        station: stands::owing_at(s, Place::Sending(held), next.behind),
        sent: next.block,
        printed: mode_a::SILENCE,
        taken: next.taken,
    }
}

// The call that is offered is placed: call block 1 goes out in this very step.
fn called(s: Station, to: Identity) -> Reply
    ensures { result ≡ called s to }
{
    let call = Called {
        to,
        sent: 1,
        last: Mark::None,
    };
    Reply {
        station: stands::begun(s, Role::Master, Place::Calling(call)),
        sent: to.block_1(),
        printed: mode_a::SILENCE,
        taken: true,
    }
}

// The same with three blocks.
fn called3(s: Station, to: Seven) -> Reply
    ensures { result ≡ called3 s to }
{
    let call = Called3 { to, sent: 1 };
    Reply {
        station: stands::begun(s, Role::Master, Place::Calling3(call)),
        sent: Words(to.0, signals::RQ, to.1),
        printed: mode_a::SILENCE,
        taken: true,
    }
}

// Stand-by that neither answers nor places a call: one step less is left to wait.
fn waits_on(s: Station, w: Waiting) -> Reply
    ensures { result ≡ waits_on s w }
{
    let waiting = Waiting {
        wait: w.wait.saturating_sub(1),
        ..w
    };
    stands::sends(
        stands::moved_to(s, Place::StandBy(waiting)),
        mode_a::SILENCE,
    )
}

// Whether this very identity is barred.
#[tactic(auto, unfolding(identity::specs::Sums::same_seven))]
fn bars(other: Peer, to: Seven) -> bool
    ensures { result ≡ bars other to }
{
    match other {
        Peer::Barred(barred) => barred == to,
        _ => false,
    }
}

// Whether the three-block call has to wait: a step is left, and its identity is barred. Another call need not.
pub fn has_to_wait(other: Peer, wait: u8, to: Seven) -> bool
    ensures { result ≡ (leb 1 wait && bars other to) }
{
    1 <= wait && bars(other, to)
}

// Stand-by that answers no call and is offered a three-block call.
fn listens3(s: Station, w: Waiting, to: Seven) -> Reply
    ensures { result ≡ listens s w (Offer.Call3 to) }
{
    if has_to_wait(s.other, w.wait, to) {
        waits_on(s, w)
    } else {
        called3(s, to)
    }
}

// Stand-by that answers no call: a call offered is placed where no step is left to wait, a three-block call also within the wait unless
// it is the one that has failed.
pub fn listens(s: Station, w: Waiting, offer: Offer) -> Reply
    ensures { result ≡ listens s w offer }
{
    match offer {
        Offer::Call(to) if w.wait == 0 => called(s, to),
        Offer::Call3(to) => listens3(s, w, to),
        _ => waits_on(s, w),
    }
}

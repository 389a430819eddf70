// Two stations run over a record (02, T-07), entry by entry: what an entry leads to. The call that walks the whole record is
// `passing::passage`.
#![tactic(auto)]

ghost use Rattle.std.specs.Prelude.{◌≡◌};
ghost use Rattle.mode_a.specs.Step.{Steps};
ghost use Rattle.runs.specs.Circuit.{heard};
ghost use Rattle.entries.specs.Passage.{begins, offer_to, event_with, event_of, after_burst, tells};
ghost use Rattle.replay.specs.Replay.{state_of, gone_by, offered_to, Goes};

use entries::{Entry, Standing};
use mode_a::{Offer, Refused, Reply, Role, Station, Words};
use telling::Told;

// The two stations between two entries: the one that hears next, the one that has sent, and what it sent; and the offers that stand.
#[derive(Clone, Copy)]
pub struct State {
    pub hearer: Station,
    pub sender: Station,
    pub burst: Words,
    pub standing: Standing,
}

// What an entry leads to, and what it prints by whom: the signals have 0 behind them.
#[derive(Clone, Copy)]
pub struct Gone {
    pub state: State,
    pub by: Role,
    pub printed: Words,
}

// A fresh master and a fresh slave, whose first burst is on the way, and no offer.
#[tactic(auto, unfolding(runs::specs::Circuit::after))]
pub fn fresh() -> State
    ensures { result ≡ state_of begins }
{
    State {
        hearer: Station::fresh_master(),
        sender: Station::fresh_slave(),
        burst: Station::first_burst(),
        standing: telling::first(),
    }
}

// An offer prints nothing.
fn offers(state: State, role: Role, offer: Offer) -> Gone
    ensures { result ≡ offered_to state role offer }
{
    Gone {
        state: State {
            standing: telling::offered(state.standing, role, offer),
            ..state
        },
        by: role,
        printed: mode_a::SILENCE,
    }
}

// The burst on the way, damaged so, is heard by this station, to which its standing offer is pressed.
fn hears(state: State, by: Role, damage: u8) -> Result<Reply, Refused>
    ensures { Steps state.hearer (heard (event_with damage (offer_to state.standing by)) state.burst) (offer_to state.standing by) result }
{
    station::step(
        state.hearer,
        telling::damaged(state.burst, damage),
        telling::offer_to(state.standing, by),
    )
}

// It has answered so, and its answer is on the way.
fn answered(state: State, by: Role, reply: Reply) -> Gone
    ensures { result ≡ gone_by state by reply }
{
    Gone {
        state: State {
            hearer: state.sender,
            sender: reply.station,
            burst: reply.sent,
            standing: telling::turned(state.standing, reply.taken),
        },
        by,
        printed: reply.printed,
    }
}

// A burst is heard, and answered.
fn burst(state: State, damage: u8) -> Gone
    ensures { Goes state (λ p. after_burst p (event_of p.standing damage)) result }
{
    let by = telling::hearing(state.standing);
    match hears(state, by, damage) {
        Ok(reply) => answered(state, by, reply),
        // not reached: two fresh stations stay sound, and an offer was judged when it was made
        Err(_) => Gone {
            state: state,
            by: by,
            printed: mode_a::SILENCE,
        },
    }
}

// What an entry without a fault leads to.
pub fn goes(state: State, entry: Entry) -> Gone
    ensures { Goes state (λ p. tells p entry) result }
{
    match telling::says(entry) {
        Told::Burst(damage) => burst(state, damage),
        Told::Offer(role, offer) => offers(state, role, offer),
    }
}

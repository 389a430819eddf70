// What is answered as a three-block call is heard or fails, and as identification ends (02, T-05; 001, 3.5.4 to 3.5.8, 3.6.9 and 3.6.11):
// the new station, which knows who is at the other end or has the identity called barred, and the burst to send. An identity is never
// printed.
#![tactic(auto)]

ghost use Rattle.std.specs.Prelude.{◌≡◌};
ghost use Rattle.signals.specs.Meaning.{cs4};
ghost use Rattle.mode_a.specs.declared.Peer.TheVariants.{Known, Barred};
ghost use Rattle.mode_a.specs.declared.Role.TheVariants.{Slave};
ghost use Rattle.mode_a.specs.Station.{single, silence};
ghost use Rattle.mode_a.specs.Step.{is_over, sends, rested, begun, knowing, meets, ends, turns, unidentified};

use identity::Seven;
use mode_a::{Ended, Gathered, Number, Offer, Peer, Place, Reply, Role, Stage, Station, Words};

// The three-block call is answered: CS4, and identification block 1 is awaited.
pub fn answers3(s: Station) -> Reply
    ensures { result ≡ sends (begun s Slave unidentified) (single cs4) }
{
    let nobody = Gathered {
        stage: Stage::One,
        got: Seven(0, 0, 0, 0, 0, 0, 0),
    };
    stands::sends(
        stands::begun(s, Role::Slave, Place::Answering(nobody)),
        Words(signals::CS4, 0, 0),
    )
}

// The three-block call has failed: Stand-by, and its identity is barred.
pub fn bars(s: Station, to: Seven) -> Reply
    ensures { result ≡ sends (rested (knowing s (Barred to)) 0) silence }
{
    let barred = stands::knowing(s, Peer::Barred(to));
    stands::sends(stands::rested(barred, 0), mode_a::SILENCE)
}

// CS5 is answered by the end, under number 2, and the identity called is barred.
pub fn ends(s: Station, to: Seven) -> Reply
    ensures { result ≡ ends (knowing s (Barred to)) }
{
    let barred = stands::knowing(s, Peer::Barred(to));
    let ended = Ended {
        number: Number::Two,
        total: 1,
    };
    stands::sends(
        stands::moved_to(barred, Place::Ending(ended)),
        mode_a::ALPHAS,
    )
}

// CS3 ends identification: the identity called is at the other end, and the called station is to send first. Block 1 is asked for next.
pub fn turns(s: Station, to: Seven) -> Reply
    ensures { result ≡ turns (knowing s (Known to)) }
{
    let known = stands::knowing(s, Peer::Known(to));
    stands::sends(
        stands::moved_to(known, Place::Turning(Number::Two)),
        mode_a::TURN,
    )
}

// RQ RQ RQ ends identification: the signals gathered are those at the other end. Where over is offered, it is taken and CS3 is sent.
pub fn meets(s: Station, got: Seven, offer: Offer) -> Reply
    ensures { result ≡ meets (knowing s (Known got)) (is_over offer) }
{
    let known = stands::knowing(s, Peer::Known(got));
    if acceptance::is_over(offer) {
        return Reply {
            station: stands::moved_to(known, Place::Asking),
            sent: Words(signals::CS3, 0, 0),
            printed: mode_a::SILENCE,
            taken: true,
        };
    }
    stands::sends(
        stands::moved_to(known, Place::Receiving(Number::One)),
        Words(signals::CS1, 0, 0),
    )
}

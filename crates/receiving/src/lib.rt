// The receiver of mode B, one word a step (01, Mode B; 001, 4.3, 4.4 and 4.6).
#![tactic(auto)]

ghost use Rattle.std.specs.Prelude.{◌≡◌, ◌≤◌, true};
ghost use Rattle.signals.specs.Units.{intact_of};
ghost use Rattle.signals.specs.Meaning.{traffic_of};
ghost use Rattle.mode_b.specs.Receiver.{hears, prints_at, run_of, locked, searched_on, searched, settled, begins, printed_of, printing_after, heard_rx, waits_for, heard_dx, waited, Receives};
ghost use Rattle.receiving.specs.Settling.{intact_signal};

use mode_b::{BadReceiver, Heard, Hearing, Phase, Phasing, Receiver, Settled, Wait};

// The error mark in a list of signals.
const ERROR_MARK: u8 = 255;

fn prints_at(hearing: Hearing, printed: Option<u8>) -> Heard
    ensures { result ≡ prints_at hearing printed }
{
    Heard {
        receiver: Receiver { hearing },
        printed,
    }
}

fn hears(hearing: Hearing) -> Heard
    ensures { result ≡ hears hearing }
{
    prints_at(hearing, None)
}

// The run of alternating phasing signals with one more.
fn run_of(run: u8, last: Phasing, now: Phasing) -> u8
    requires { run ≤ 3 }
    ensures { result ≡ run_of run last now }
{
    if run == 0 || last == now { 1 } else { run + 1 }
}

// In phase after the fourth signal: RQ marks DX, so after RQ an RX slot comes next.
fn locked(now: Phasing) -> Hearing
    ensures { result ≡ locked now }
{
    Hearing::InPhase(Phase {
        first: signals::RQ,
        second: signals::RQ,
        third: signals::RQ,
        dx: now == Phasing::One,
        printing: false,
    })
}

fn searched_on(run: u8, now: Phasing) -> Heard
    ensures { result ≡ searched_on run now }
{
    hears(if 3 < run {
        locked(now)
    } else {
        Hearing::Searching(run, now)
    })
}

// A word heard while it searches.
fn searched(run: u8, last: Phasing, word: u8) -> Heard
    requires { run ≤ 3 }
    ensures { result ≡ searched run last word }
{
    match word {
        signals::ALPHA => searched_on(run_of(run, last, Phasing::One), Phasing::One),
        signals::RQ => searched_on(run_of(run, last, Phasing::Two), Phasing::Two),
        _ => hears(Hearing::Searching(0, Phasing::One)),
    }
}

// A position settled by both copies: RQ and then α, intact and unlike, is phasing.
#[tactic(auto, using(crate::proofs::SettlingLaws::phasing_intact), unfolding(mode_b::specs::Receiver::settled))]
fn settled(dx: u8, rx: u8) -> Settled
    ensures rule { result ≡ settled dx rx }
    ensures intact { intact_signal result ≡ true }
{
    match (signals::intact(dx), signals::intact(rx)) {
        (true, true) if dx == rx => Settled::Signal(dx),
        (true, true) if dx == signals::RQ && rx == signals::ALPHA => Settled::Phasing,
        (true, true) => Settled::Error,
        (true, false) => Settled::Signal(dx),
        (false, true) => Settled::Signal(rx),
        (false, false) => Settled::Error,
    }
}

// Whether printing begins with a signal: return and line feed.
fn begins(word: u8) -> bool
    ensures { result ≡ begins word }
{
    word == mode_b::CARRIAGE_RETURN || word == mode_b::LINE_FEED
}

// Whether printing has begun after a settled position.
fn printing_after(printing: bool, settled: Settled) -> bool
    ensures { result ≡ printing_after printing settled }
{
    match settled {
        Settled::Signal(word) => printing || begins(word),
        Settled::Phasing | Settled::Error => printing,
    }
}

// Whether an intact word is traffic: three comparisons, where `signals::is_traffic` counts its ones too.
#[tactic(auto, using(crate::proofs::SettlingLaws::traffic_by))]
fn is_traffic(word: u8) -> bool
    requires { intact_of word ≡ true }
    ensures { result ≡ traffic_of word }
{
    (word != signals::ALPHA) & (word != signals::BETA) & (word != signals::RQ)
}

// What a settled position prints once printing has begun, or by beginning it.
fn printed_of(printing: bool, settled: Settled) -> Option<u8>
    requires { intact_signal settled ≡ true }
    ensures { result ≡ printed_of printing settled }
{
    if !printing_after(printing, settled) {
        return None;
    }
    match settled {
        Settled::Signal(word) if is_traffic(word) => Some(word),
        Settled::Error => Some(ERROR_MARK),
        Settled::Signal(_) | Settled::Phasing => None,
    }
}

// A word heard in an RX slot: the oldest waiting position is settled.
#[tactic(auto, unfolding(mode_b::specs::Receiver::heard_rx))]
fn heard_rx(p: Phase, word: u8) -> Heard
    ensures { result ≡ heard_rx p word }
{
    let position = settled(p.first, word);
    let after = Phase {
        dx: true,
        printing: printing_after(p.printing, position),
        ..p
    };
    prints_at(Hearing::InPhase(after), printed_of(p.printing, position))
}

// Behind two successive α in DX: `left` words are still to be heard, and one position waits for the first of them, or none.
fn waits_for(word: u8, printing: bool, left: u8) -> Hearing
    ensures { result ≡ waits_for word printing left }
{
    Hearing::Waiting(Wait {
        word,
        printing,
        left,
    })
}

// A word heard in a DX slot: it waits for its RX; the second α in succession begins the wait that ends reception.
#[tactic(auto, unfolding(mode_b::specs::Receiver::heard_dx))]
fn heard_dx(p: Phase, word: u8) -> Heard
    ensures { result ≡ heard_dx p word }
{
    if word == signals::ALPHA && p.third == signals::ALPHA {
        return hears(waits_for(p.second, p.printing, 3));
    }
    hears(Hearing::InPhase(Phase {
        first: p.second,
        second: p.third,
        third: word,
        dx: false,
        ..p
    }))
}

// One of the three words behind the second α. The first is the RX of the position that waits; the others print nothing, and behind the
// last it searches.
#[tactic(auto, unfolding(mode_b::specs::Receiver::waited))]
fn waited(v: Wait, word: u8) -> Heard
    ensures { result ≡ waited v word }
{
    match v.left {
        3 => {
            let position = settled(v.word, word);
            prints_at(waits_for(0, false, 2), printed_of(v.printing, position))
        }
        2 => hears(waits_for(0, false, 1)),
        _ => hears(Hearing::Searching(0, Phasing::One)),
    }
}

// One step of a receiver of mode B (01, Mode B; 02, T-03): it hears a word and answers the receiver and at most one printed signal, 255
// for an error. Refuses 4 for a search run or a remaining wait over 3, and nothing else; the receiver is then as it was.
pub fn receive(receiver: Receiver, word: u8) -> Result<Heard, BadReceiver>
    ensures { Receives receiver word result }
{
    match receiver.hearing {
        Hearing::Searching(run, last) if run <= 3 => Ok(searched(run, last, word)),
        Hearing::InPhase(p) if p.dx => Ok(heard_dx(p, word)),
        Hearing::InPhase(p) => Ok(heard_rx(p, word)),
        Hearing::Waiting(v) if v.left <= 3 => Ok(waited(v, word)),
        Hearing::Searching(_, _) | Hearing::Waiting(_) => Err(BadReceiver(receiver)),
    }
}

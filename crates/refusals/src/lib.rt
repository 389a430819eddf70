// What a step refuses, before anything is done (01, Numbers returned; 02, T-02, T-05 and T-06), and so does the question for its reason: the
// first signal of a call that is outside table 3a, a station that is not sound, a code that does not pass, the first word of a text offer that
// may not stand there.
#![tactic(auto)]

ghost use Rattle.std.specs.Prelude.{◌≡◌, ◌++◌};
ghost use Rattle.signals.specs.Numbers.{first_not};
ghost use Rattle.identity.specs.Table3.{is_identity};
ghost use Rattle.identity.specs.Sums.{signals_of7};
ghost use Rattle.mode_a.specs.Station.{list_of};
ghost use Rattle.mode_a.specs.Heard.{may_hold};
ghost use Rattle.mode_a.specs.Step.{sound_place, sound};
ghost use Rattle.mode_a.specs.Answerback.{passes};
ghost use Rattle.refusals.specs.Parts.{bad_offer, bad_call};
ghost use Rattle.refusals.specs.Judging.{Judges};

use identity::Seven;
use mode_a::{Offer, Place, Refusal, Station, Words};

// The most signals that are judged: the seven of the identity called and, behind them, the seven of the own one.
pub const SIGNALS: usize = 14;

// A letter of table 3a, and seven of it.
const V: u8 = 60;

const ALL_V: Seven = Seven(V, V, V, V, V, V, V);

// Of the words below 64, which may stand in a block: bit n, from the right, is that of word n.
const BELOW_64: u64 =
    0b0001_0110_0110_1000_0110_1000_1000_0000_0110_1000_1000_0000_0000_0000_0000_0000;

// The same of the words from 64 to 127: bit n is that of word 64 + n.
const FROM_64: u64 =
    0b0000_0001_0001_0110_0001_0110_0010_1000_0001_0110_0110_1000_0110_1000_1000_0000;

// What `mode_a::may_hold` answers, by the word's bit.
// KEPT: a step judges up to six words, and this takes half the instructions of `mode_a::may_hold`.
fn may_stand(word: u8) -> bool
    ensures { result ≡ may_hold word }
{
    let half = if word < 64 { BELOW_64 } else { FROM_64 };
    (word < 128) & ((half >> (word % 64)) & 1 == 1)
}

// The index of the first word that may not stand in a block; 3 where all may.
fn first_bad(w: Words) -> usize
    ensures { result ≡ first_not may_hold (list_of w) }
{
    let words = [w.0, w.1, w.2];
    words.iter().position(|&word| !may_stand(word)).unwrap_or(3)
}

fn sound_place(place: Place) -> bool
    ensures { result ≡ sound_place place }
{
    match place {
        Place::Sending(held) => 3 <= first_bad(held.block),
        Place::Ending(ended) => 1 <= ended.total && ended.total <= Station::ENDINGS,
        _ => true,
    }
}

// Whether a step of the station is done: refusal 4 where not.
#[tactic(auto, unfolding(mode_a::specs::Step::sound))]
pub fn sound(s: Station) -> bool
    ensures { result ≡ sound s }
{
    s.count < Station::LIMIT && sound_place(s.place) && owed::exists(s.own.code, s.owed)
}

// The index of the first word of a text offer that may not stand there; 3 where all may, or the offer has no words.
pub fn bad_offer(offer: Offer) -> usize
    ensures { result ≡ bad_offer offer }
{
    match offer {
        Offer::Text(words) => first_bad(words),
        _ => 3,
    }
}

// The index of the first signal outside table 3a, of seven and of seven behind them; 14 where none is.
fn first_outside(first: Seven, second: Seven) -> usize
    ensures { result ≡ first_not is_identity (signals_of7 first ++ signals_of7 second) }
{
    let outside = first.first_outside();
    if outside < 7 {
        return outside;
    }
    7 + second.first_outside()
}

// The index of the first signal outside table 3a, of the identity offered and then, for a three-block call, of the own one that
// identification tells; 14 where none is, or no call is offered.
pub fn bad_call(s: Station, offer: Offer) -> usize
    ensures { result ≡ bad_call s.own offer }
{
    match offer {
        Offer::Call(to) => {
            // a letter stands for each signal that such a call does not have, so that one function judges both
            first_outside(Seven(to.0, to.1, to.2, to.3, V, V, V), ALL_V)
        }
        Offer::Call3(to) => first_outside(to, s.own.seven),
        _ => SIGNALS,
    }
}

// Whether the code passes. The empty one does, and is not copied to be judged.
#[tactic(auto, using(crate::proofs::JudgedLaws::passes_empty))]
fn code_passes(s: Station) -> bool
    ensures { result ≡ passes s.own.code }
{
    let own = s.own;
    let code = own.code;
    if code.length == 0 {
        return true;
    }
    answerback::passes(code)
}

// What a step of the station to which this is offered refuses: 8, then 4, then 9, then 3.
#[tactic(auto, using(crate::proofs::JudgedLaws::call_refused, crate::proofs::JudgedLaws::station_refused, crate::proofs::JudgedLaws::code_refused, crate::proofs::JudgedLaws::word_refused, crate::proofs::JudgedLaws::nothing_refused))]
pub fn judged(s: Station, offer: Offer) -> Result<(), Refusal>
    ensures { Judges s offer result }
{
    let outside = bad_call(s, offer);
    if outside < SIGNALS {
        return Err(Refusal::BadCall(outside));
    }
    if !sound(s) {
        return Err(Refusal::BadStation);
    }
    if !code_passes(s) {
        return Err(Refusal::BadCode);
    }
    let bad = bad_offer(offer);
    if bad < 3 {
        return Err(Refusal::BadWord(bad));
    }
    Ok(())
}

// The sender of mode B: the word of any slot (01, Mode B; 001, 4.2, 4.4 and 4.6), found without a list of slots.
#![tactic(auto)]

ghost use Rattle.std.specs.Prelude.{◌≡◌, Bool, true, ℕ, ◌+◌, ◌≤◌, ◌<◌, length, get_or};
ghost use Rattle.signals.specs.Meaning.{alpha, rq};
ghost use Rattle.signals.specs.Numbers.{first_not};
ghost use Rattle.mode_b.specs.Sender.{dx_of, rx_of, Slots};
ghost use Rattle.sending.specs.Places.{sent_text, count_of, at_of, by_at};
ghost use Rattle.sending.specs.Tests.{DecidedBy};

use mode_b::SlotError;

// What stands at a position: a phasing pair, the traffic signal with an index (return and line feed are 0 and 1), or α.
#[derive(Clone, Copy)]
pub enum At {
    Phasing,
    Traffic(usize),
    Idle,
}

// Whether the test holds of every word. It looks at all of them, one like the other, so that the compiler can take sixteen at a time.
fn all_pass<F: Fn(u8) -> bool>(words: &[u8], may: &F) -> bool
    requires { F.IsAlwaysCallable may.now }
    ensures { (test : ℕ → Bool) → DecidedBy test (F.post may.now) → result ≡ true → first_not test words.now ≡ length words.now }
{
    let mut all = true;
    for &word in words {
        all &= may(word);
    }
    all
}

// The index of the first word of which the test does not hold; the length where it holds of all.
fn first_failing<F: Fn(u8) -> bool>(words: &[u8], may: F) -> usize
    requires { F.IsAlwaysCallable may }
    ensures { (test : ℕ → Bool) → DecidedBy test (F.post may) → result ≡ first_not test words.now }
{
    if all_pass(words, &may) {
        return words.len();
    }
    words
        .iter()
        .position(|&word| !may(word))
        .unwrap_or(words.len())
}

// How many positions a sending of n traffic signals has: 16 phasing, the traffic with four phasing after each 96 if more follows, 17 α.
fn count_of(n: usize) -> usize
    requires { (1 ≤ n) × (n ≤ 8194) }
    ensures { result ≡ count_of n }
{
    33 + n + 4 * ((n - 1) / 96)
}

// What stands at position t of a sending of n traffic signals: after the first 16, each 100 positions are 96 of traffic and a break.
#[tactic(auto, unfolding(crate::specs::Places::at_of))]
fn stands_at(n: usize, t: usize) -> At
    requires { n ≤ 8194 }
    ensures { result ≡ at_of n t }
{
    if t < 16 {
        return At::Phasing;
    }
    let group = (t - 16) / 100;
    let rest = (t - 16) % 100;
    if rest < 96 {
        let index = group * 96 + rest;
        if index < n {
            At::Traffic(index)
        } else {
            At::Idle
        }
    } else if group * 96 + 96 < n {
        At::Phasing
    } else {
        At::Idle
    }
}

// The traffic signal with an index: return, line feed, the text.
fn traffic(text: &[u8], index: usize) -> u8
    requires { index < length text.now + 2 }
    ensures { result ≡ get_or (sent_text text.now) index 0 }
{
    match index {
        0 => mode_b::CARRIAGE_RETURN,
        1 => mode_b::LINE_FEED,
        _ => text[index - 2],
    }
}

// The word of a position, in DX where a phasing position is RQ, and in RX where it is α.
fn word_at(text: &[u8], t: usize, phasing: u8) -> u8
    requires { length text.now ≤ 8192 }
    ensures dx { phasing ≡ rq → result ≡ dx_of (by_at text.now (at_of (length text.now + 2) t)) }
    ensures rx { phasing ≡ alpha → result ≡ rx_of (by_at text.now (at_of (length text.now + 2) t)) }
{
    match stands_at(text.len() + 2, t) {
        At::Phasing => phasing,
        At::Traffic(index) => traffic(text, index),
        At::Idle => signals::ALPHA,
    }
}

// The word of a slot of mode B (01, Mode B) for a text of traffic signals. Refuses 7, then 3, then 6 with the number of slots (01,
// Numbers returned).
pub fn slot(text: &[u8], number: usize) -> Result<u8, SlotError>
    ensures { Slots text.now number result }
{
    if 8192 < text.len() {
        return Err(SlotError::TooLong);
    }
    let bad = first_failing(text, signals::is_traffic);
    if bad < text.len() {
        return Err(SlotError::BadWord(bad));
    }
    let slots = 2 * count_of(text.len() + 2);
    if slots <= number {
        return Err(SlotError::PastLast(slots));
    }
    let t = number / 2;
    if number % 2 == 0 {
        Ok(word_at(text, t, signals::RQ))
    } else if t < 2 {
        Ok(signals::ALPHA)
    } else {
        Ok(word_at(text, t - 2, signals::ALPHA))
    }
}

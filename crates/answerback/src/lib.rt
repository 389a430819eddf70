// The answer-back code of a station (02, T-06; 001, 3.7.13.2): which codes pass, and a station that is given one.
#![tactic(auto)]

ghost use Rattle.std.specs.Prelude.{◌≡◌};
ghost use Rattle.signals.specs.declared.Case.TheVariants.{Figures};
ghost use Rattle.mode_a.specs.Answerback.{passes};
ghost use Rattle.mode_a.specs.Step.{coded, Codes};
ghost use Rattle.answerback.specs.Judged.{is_plain, special, judged};

use mode_a::{BadCode, Code, Owed, Own, Station};
use signals::Case;

// "The code has at most 20 signals".
const SIGNALS: u8 = 20;

// The words of +, ? and who are you (D).
const CROSS: u8 = 99;

const QUERY: u8 = 114;

const WHO: u8 = 83;

// Of the words below 64, which are plain: traffic that neither shifts nor, in figures, asks or completes an over. Bit n, from the right, is
// that of word n.
const BELOW_64: u64 =
    0b0001_0110_0010_0000_0110_1000_1000_0000_0110_1000_1000_0000_0000_0000_0000_0000;

// The same of the words from 64 to 127: bit n is that of word 64 + n.
const FROM_64: u64 =
    0b0000_0001_0001_0010_0001_0110_0010_1000_0001_0010_0110_0000_0110_1000_1000_0000;

// Whether a word is plain, by its bit: a step of a station with a code judges each of its words.
fn is_plain(word: u8) -> bool
    ensures { result ≡ is_plain word }
{
    let half = if word < 64 { BELOW_64 } else { FROM_64 };
    (word < 128) & ((half >> (word % 64)) & 1 == 1)
}

// The case that stands behind a word that is not plain, or nothing, since the code does not pass: in the case in force, behind the word
// `before`. Between the + and the ? of an over only β may stand, and no code has β, so that the + is the word before.
#[tactic(auto, unfolding(crate::specs::Judged::special))]
fn special(case: Case, before: u8, word: u8) -> Option<Case>
    ensures { result ≡ special case before word }
{
    match (word, case) {
        (signals::LETTERS, _) => Some(Case::Letters),
        (signals::FIGURES, _) => Some(Case::Figures),
        (WHO | QUERY, Case::Letters) => Some(Case::Letters),
        (QUERY, Case::Figures) if before != CROSS => Some(Case::Figures),
        _ => None,
    }
}

// The words of a code, judged from figures case.
fn judged(words: &[u8]) -> bool
    ensures { result ≡ judged Figures 0 words.now }
{
    let mut case = Case::Figures;
    let mut before = 0;
    for &word in words {
        if !is_plain(word) {
            match special(case, before, word) {
                Some(behind) => case = behind,
                None => return false,
            }
        }
        before = word;
    }
    true
}

// Whether a code passes: refusal 9 where not. It is judged from figures alone: what asks or completes an over from letters does so from
// figures too, for up to the first shift nothing counts in letters, and behind it the two are one.
pub fn passes(code: Code) -> bool
    ensures { result ≡ passes code }
{
    // most stations have the empty code, and a step of theirs copies no word
    if code.length == 0 {
        return true;
    }
    if SIGNALS < code.length {
        return false;
    }
    let words = [
        code.first.0,
        code.first.1,
        code.first.2,
        code.second.0,
        code.second.1,
        code.second.2,
        code.third.0,
        code.third.1,
        code.third.2,
        code.fourth.0,
        code.fourth.1,
        code.fourth.2,
        code.fifth.0,
        code.fifth.1,
        code.fifth.2,
        code.sixth.0,
        code.sixth.1,
        code.sixth.2,
        code.seventh.0,
        code.seventh.1,
        code.seventh.2,
    ];
    judged(&words[..code.length as usize])
}

// The station with this code, which owes nothing: what was owed of another code is dropped.
fn coded(s: Station, code: Code) -> Station
    ensures { result ≡ coded s code }
{
    Station {
        own: Own { code, ..s.own },
        owed: Owed::Nothing,
        ..s
    }
}

// The station with this code, which owes nothing. Refuses 9, with the same station.
#[tactic(auto, unfolding(mode_a::specs::Step::coding))]
pub fn with_code(s: Station, code: Code) -> Result<Station, BadCode>
    ensures { Codes s code result }
{
    if !passes(code) {
        return Err(BadCode(s));
    }
    Ok(coded(s, code))
}

// Judging a list of signals before a byte of it is printed: which word may not stand, and what room the list needs (01, Text;
// Numbers returned, 3 and 2).
#![tactic(auto)]

ghost use Rattle.std.specs.Prelude.{true, ◌≡◌, ◌≤◌, length, if◌then◌else◌};
ghost use Rattle.signals.specs.declared.Case.{Case};
ghost use Rattle.signals.specs.Numbers.{first_not};
ghost use Rattle.text.specs.Printing.{may_print, printed};
ghost use Rattle.judging.specs.Size.{size_of, sizes_of};

// The error mark in a list of signals (01, Text).
pub const ERROR_MARK: u8 = 255;

// The signal blank (01, The code, No 32).
const BLANK: u8 = 106;

// Whether a word may stand in a list that is printed: traffic, or the error mark.
fn may_print(word: u8) -> bool
    ensures { result ≡ may_print word }
{
    signals::is_traffic(word) | (word == ERROR_MARK)
}

// True only where every word may stand. It looks at all of them, one like the other, so that the compiler can take sixteen at a
// time.
fn all_may(words: &[u8]) -> bool
    ensures { result ≡ true → first_not may_print words.now ≡ length words.now }
{
    words.iter().fold(true, |all, word| all & may_print(*word))
}

// The first word that may not stand, found one by one.
fn searched(words: &[u8]) -> usize
    ensures { result ≡ first_not may_print words.now }
{
    words
        .iter()
        .position(|word| !may_print(*word))
        .unwrap_or(words.len())
}

// The index of the first word that may not stand; the length where all may.
pub fn first_bad(words: &[u8]) -> usize
    ensures { result ≡ first_not may_print words.now }
{
    if all_may(words) {
        return words.len();
    }
    searched(words)
}

// Whether a word that may stand prints a byte, in either case.
fn prints(word: u8) -> bool
    ensures { size_of word ≡ (if result then 1 else 0) }
{
    !matches!(word, signals::LETTERS | signals::FIGURES | BLANK)
}

// The room that the words need where each may stand, whatever case they start in.
pub fn needed(words: &[u8]) -> usize
    ensures { (result ≡ sizes_of words.now) × (length words.now ≤ first_not may_print words.now → (c : Case) → result ≡ length (printed c words.now)) }
{
    words.iter().filter(|word| prints(**word)).count()
}

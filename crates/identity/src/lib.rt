// Identity signals (001, 2.4 and 2.5; 02, T-02 and T-05): which words are letters of table 3a, the seven signals of an identity, and
// their three check-sums.
#![tactic(auto)]

ghost use Rattle.std.specs.Prelude.{◌≡◌, if◌then◌else◌};
ghost use Rattle.signals.specs.Numbers.{first_not};
ghost use Rattle.identity.specs.Table3.{is_identity, number_of};
ghost use Rattle.identity.specs.Sums.{signals_of7, check_sum, check_sum1, check_sum2, check_sum3, same_seven};

// Of the words below 64, which are letters of table 3a: bit n, from the right, is that of word n. They are 27, 29, 30, 43, 45, 46, 57,
// 58 and 60.
const BELOW_64: u64 =
    0b0001_0110_0000_0000_0110_1000_0000_0000_0110_1000_0000_0000_0000_0000_0000_0000;

// The same of the words from 64 to 127: bit n is that of word 64 + n. They are 71, 75, 77, 78, 83, 85, 86, 99, 113, 114 and 116.
const FROM_64: u64 =
    0b0000_0000_0001_0110_0000_0000_0000_1000_0000_0000_0110_1000_0110_1000_1000_0000;

// Whether a word is a letter of table 3a. No byte over 127 is intact.
pub fn may_identify(word: u8) -> bool
    ensures { result ≡ is_identity word }
{
    let half = if word < 64 { BELOW_64 } else { FROM_64 };
    (word < 128) & ((half >> (word % 64)) & 1 == 1)
}

// Table 3b. ORDER: a letter's number, in table 3a too, is its place.
const LETTERS: [u8; 20] = [
    060, //  0  V
    058, //  1  X
    046, //  2  Q
    030, //  3  K
    057, //  4  M
    045, //  5  P
    029, //  6  C
    043, //  7  Y
    027, //  8  F
    075, //  9  S
    116, // 10  T
    114, // 11  B
    078, // 12  U
    086, // 13  E
    113, // 14  O
    077, // 15  I
    085, // 16  R
    099, // 17  Z
    083, // 18  D
    071, // 19  A
];

// The number of a letter of table 3a; 0, which is V's too, for a word that is none.
fn number(word: u8) -> u8
    ensures { result ≡ number_of word }
{
    LETTERS
        .iter()
        .position(|&letter| letter == word)
        .unwrap_or(0) as u8
}

// The check-sum signal of three identity signals (001, 2.5). Adding first and dividing once gives what modulo 20-addition gives.
fn check_sum(x: u8, y: u8, z: u8) -> u8
    ensures { result ≡ check_sum x y z }
{
    let letters = LETTERS;
    let sum = (number(x) + number(y) + number(z)) % 20;
    letters[sum as usize]
}

// One step of a search from the right for the first word outside table 3a: `place` where `word` is outside, else the answer for the
// words behind it.
pub fn outside(word: u8, place: usize, rest: usize) -> usize
    ensures { result ≡ (if is_identity word then rest else place) }
{
    if may_identify(word) { rest } else { place }
}

// Seven identity signals (02, T-05; 001, 3.5.2). A station without such an identity has seven zeros.
#[derive(Clone, Copy, PartialEq, Eq)]
pub struct Seven(pub u8, pub u8, pub u8, pub u8, pub u8, pub u8, pub u8);

impl Seven {
    // "N1 ⊕ N2 ⊕ N3 = CN1" (001, 2.5)
    pub fn check_sum_1(self) -> u8
        ensures { result ≡ check_sum1 self }
    {
        check_sum(self.0, self.1, self.2)
    }

    // "N3 ⊕ N4 ⊕ N5 = CN2": the third signal counts in the first sum too
    pub fn check_sum_2(self) -> u8
        ensures { result ≡ check_sum2 self }
    {
        check_sum(self.2, self.3, self.4)
    }

    // "N5 ⊕ N6 ⊕ N7 = CN3": the fifth signal counts in the second sum too
    pub fn check_sum_3(self) -> u8
        ensures { result ≡ check_sum3 self }
    {
        check_sum(self.4, self.5, self.6)
    }

    // The index of the first signal outside table 3a; 7 where all seven are of it.
    pub fn first_outside(self) -> usize
        ensures { result ≡ first_not is_identity (signals_of7 self) }
    {
        let signals = [self.0, self.1, self.2, self.3, self.4, self.5, self.6];
        signals
            .iter()
            .position(|&word| !may_identify(word))
            .unwrap_or(7)
    }

    // Whether two identities are the same in each of the seven.
    #[tactic(auto, unfolding(crate::specs::Sums::same_seven))]
    pub fn same(self, other: Seven) -> bool
        ensures { result ≡ same_seven self other }
    {
        self == other
    }
}

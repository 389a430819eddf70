// The seven-unit code (01, The code; 001, tables 1 and 2): the meaning of a word, whether it is intact, and the 35 rows, which the
// encoder and the printer search too.
#![tactic(auto)]

ghost use Rattle.std.specs.Prelude.{◌≡◌};
ghost use Rattle.signals.specs.Units.{intact_of};
ghost use Rattle.signals.specs.Meaning.{meaning_of, traffic_of};
ghost use Rattle.signals.specs.Cases.{other, shift_to};
ghost use Rattle.signals.specs.Rows.{Rows};

// The case of a direction, or of a text (01, Text).
#[derive(Clone, Copy, PartialEq, Eq)]
pub enum Case {
    Letters,
    Figures,
}

impl Case {
    pub fn other(self) -> Case
        ensures { result ≡ other self }
    {
        match self {
            Case::Letters => Case::Figures,
            Case::Figures => Case::Letters,
        }
    }

    // The signal that shifts to the case.
    pub fn shift(self) -> u8
        ensures { result ≡ shift_to self }
    {
        match self {
            Case::Letters => LETTERS,
            Case::Figures => FIGURES,
        }
    }
}

// The shifts (01, The code, Nos 29 and 30).
pub const LETTERS: u8 = 90;

pub const FIGURES: u8 = 54;

// The service signals (Nos 33 to 35), and the control signals, which share words with L, blank, N, G and H.
pub const ALPHA: u8 = 15;

pub const BETA: u8 = 51;

pub const RQ: u8 = 102;

pub const CS1: u8 = 101;

pub const CS2: u8 = 106;

pub const CS3: u8 = 89;

pub const CS4: u8 = 53;

pub const CS5: u8 = 105;

// A signal's word, and the byte that it prints in letters case and in figures case; 0 where it prints none.
#[derive(Clone, Copy)]
pub struct Row(pub u8, pub u8, pub u8);

// ORDER: a signal's number less one is its place.
const ROWS: [Row; 35] = [
    // word letter figure
    Row(071, 65, 45), //  1  A  -
    Row(114, 66, 63), //  2  B  ?
    Row(029, 67, 58), //  3  C  :
    Row(083, 68, 05), //  4  D  who are you
    Row(086, 69, 51), //  5  E  3
    Row(027, 70, 35), //  6  F
    Row(053, 71, 35), //  7  G
    Row(105, 72, 35), //  8  H
    Row(077, 73, 56), //  9  I  8
    Row(023, 74, 07), // 10  J  bell
    Row(030, 75, 40), // 11  K  (
    Row(101, 76, 41), // 12  L  )
    Row(057, 77, 46), // 13  M  .
    Row(089, 78, 44), // 14  N  ,
    Row(113, 79, 57), // 15  O  9
    Row(045, 80, 48), // 16  P  0
    Row(046, 81, 49), // 17  Q  1
    Row(085, 82, 52), // 18  R  4
    Row(075, 83, 39), // 19  S  '
    Row(116, 84, 53), // 20  T  5
    Row(078, 85, 55), // 21  U  7
    Row(060, 86, 61), // 22  V  =
    Row(039, 87, 50), // 23  W  2
    Row(058, 88, 47), // 24  X  /
    Row(043, 89, 54), // 25  Y  6
    Row(099, 90, 43), // 26  Z  +
    Row(120, 13, 13), // 27  carriage return
    Row(108, 10, 10), // 28  line feed
    Row(090, 00, 00), // 29  letters
    Row(054, 00, 00), // 30  figures
    Row(092, 32, 32), // 31  space
    Row(106, 00, 00), // 32  blank
    Row(015, 00, 00), // 33  alpha
    Row(051, 00, 00), // 34  beta
    Row(102, 00, 00), // 35  RQ
];

// The number of the signal that a word means, 1 to 35, or 0 where it is mutilated (01, The code; 02, T-04). Each of the 35 intact
// words has a row, so the search for one always hits.
// KEPT: of `rows.iter().position(..)` the compiler makes a table of jumps, 580 bytes in place of 255, and T-04 asks for less flash.
pub fn meaning(word: u8) -> u8
    ensures { result ≡ meaning_of word }
{
    if !intact(word) {
        return 0;
    }
    let rows = rows();
    let mut place = 0;
    while rows[place].0 != word {
        place += 1;
    }
    place as u8 + 1
}

// Whether a heard word is intact: below 128, and with exactly four ones (01, The code; 001, 1.1).
#[tactic(auto, using(crate::proofs::CodeLaws::ones_intact))]
pub fn intact(word: u8) -> bool
    ensures { result ≡ intact_of word }
{
    (word < 128) & (u8::count_ones(word) == 4)
}

// Whether a word is traffic: an intact word that is none of the three service signals.
#[tactic(auto, using(crate::proofs::CodeLaws::traffic_is))]
pub fn is_traffic(word: u8) -> bool
    ensures { result ≡ traffic_of word }
{
    intact(word) & (word != ALPHA) & (word != BETA) & (word != RQ)
}

// The table of rows. A constant is built anew, on the stack, wherever it is used.
#[tactic(auto, unfolding(crate::specs::Rows::row_of))]
pub fn rows() -> [Row; 35]
    ensures { Rows result }
{
    ROWS
}

// Encoding: operator's characters to signals (01, Text; 02, T-01: small letters as the capitals). The text is judged whole before
// a signal is written (`characters`).
#![tactic(auto)]

ghost use Rattle.std.specs.Prelude.{
  true,
  ◌≡◌,
  ◌+◌,
  ◌≤◌,
  List,
  ℕ,
  Err,
  IsOk,
  IfOk,
  IfErr,
  length,
  if◌then◌else◌,
};
ghost use Rattle.laws.specs.Room.{Wrote};
ghost use Rattle.signals.specs.declared.Case.{Case};
ghost use Rattle.signals.specs.Cases.{other, shift_to};
ghost use Rattle.signals.specs.Numbers.{first_not};
ghost use Rattle.text.specs.Encoding.{character_of, has_signal, signals_for, case_after, encoded, ends_encoded, Encodes};
ghost use Rattle.characters.specs.Holder.{HasRow};

use signals::{Case, Row};
use text::{EncodeError, Written};

// A, the first of the letters: of the bytes that have a signal, those below stand for figures or are the same in either case.
const FIRST_LETTER: u8 = 65;

// The row of a byte's signal. The letters are signals 1 to 26 in their order, which their last five bits count, small or not; any other
// character stands once in the figure column, so the search always hits. (What stands there more often, 0 and 35, has no signal.)
// KEPT: as in `signals::meaning`, a search by the library's method takes more flash (02, T-04).
fn row_of(byte: u8) -> Row
    requires { has_signal byte ≡ true }
    ensures { HasRow byte result }
{
    let rows = signals::rows();
    if FIRST_LETTER <= byte {
        return rows[(byte & 31) as usize - 1];
    }
    let mut place = 0;
    while rows[place].2 != byte {
        place += 1;
    }
    rows[place]
}

// KEPT: a byte and its row are handed on apart, each time with HasRow: with one struct that holds both and the fact, `encode` took nearly
// twice the instructions for 64 characters (4,916 and 2,529, both measured with a search by the library's method).
// Whether a byte needs the other case than the one in force. A small letter stands in no column of its row, so a letter is told by
// its byte; what stands in the letter column too, and is no letter, is the same in either case.
fn needs_shift(case: Case, byte: u8, row: Row) -> bool
    requires { HasRow byte row }
    ensures { case_after case (character_of byte) ≡ (if result then other case else case) }
{
    match case {
        Case::Letters => (byte < FIRST_LETTER) & (row.1 != byte),
        Case::Figures => FIRST_LETTER <= byte,
    }
}

// How much is written with a byte's signals behind it, and the case in force there.
fn past(from: Written, byte: u8, row: Row) -> Written
    requires { HasRow byte row × (from.count ≤ 8192) }
    ensures count_value { result.count ≡ from.count + length (signals_for from.ends (character_of byte)) }
    ensures case_value { result.ends ≡ case_after from.ends (character_of byte) }
{
    if needs_shift(from.ends, byte, row) {
        return Written {
            count: from.count + 2,
            ends: from.ends.other(),
        };
    }
    Written {
        count: from.count + 1,
        ends: from.ends,
    }
}

// The shift to a case.
fn shift_to(case: Case) -> u8
    ensures { result ≡ shift_to case }
{
    case.shift()
}

// Writes a byte's signals: the shift that it needs, if any, and its own.
fn put(room: &mut [u8], from: Written, byte: u8, row: Row) -> Written
    requires row { HasRow byte row }
    requires small { from.count ≤ 8192 }
    requires fits { from.count + length (signals_for from.ends (character_of byte)) ≤ length room.old }
    ensures wrote { Wrote room.old from.count (signals_for from.ends (character_of byte)) result.count room.new }
    ensures case_value { result.ends ≡ case_after from.ends (character_of byte) }
{
    let to = past(from, byte, row);
    if to.ends != from.ends {
        room[from.count] = shift_to(to.ends);
    }
    room[to.count - 1] = row.0;
    to
}

// A text that is judged: short enough, and each byte of it has a signal.
#[derive(Clone, Copy)]
struct Judged<'a> {
    text: &'a [u8],
    ghost short: { length text.now ≤ 4096 },
    ghost have: { length text.now ≤ first_not has_signal text.now },
}

// The characters of a text, at most (01, Numbers returned).
const MOST_CHARACTERS: usize = 4096;

// Refusals 5 and 1, which come whatever the room is.
fn judge(text: &[u8]) -> Result<Judged<'_>, EncodeError>
    ensures ok { IfOk result (λ judged. judged.text.now ≡ text.now) }
    ensures err { IfErr result (λ e. (c : Case) (room : List ℕ) → Encodes text.now c room (Err e) room) }
{
    if MOST_CHARACTERS < text.len() {
        return Err(EncodeError::TooLong);
    }
    let first = characters::first_without(text);
    if first < text.len() {
        return Err(EncodeError::NoSignal(first));
    }
    Ok(Judged { text })
}

// The room that the text's signals need.
fn room_for(judged: Judged, case: Case) -> usize
    ensures { result ≡ length (encoded case judged.entry.text.now) }
{
    let mut to = Written {
        count: 0,
        ends: case,
    };
    for &byte in judged.text {
        to = past(to, byte, row_of(byte));
    }
    to.count
}

// KEPT: `room_for` and `write` are two loops of one line, over `past` and `put`: one loop over a closure would have to say in both what each
// call of it leaves in the room.
// Writes the text's signals at the start of the room.
fn write(judged: Judged, case: Case, room: &mut [u8]) -> Written
    requires { length (encoded case judged.text.now) ≤ length room.old }
    ensures wrote { Wrote room.old 0 (encoded case judged.entry.text.now) result.count room.new }
    ensures case_value { result.ends ≡ ends_encoded case judged.entry.text.now }
{
    let mut to = Written {
        count: 0,
        ends: case,
    };
    for &byte in judged.text {
        to = put(room, to, byte, row_of(byte));
    }
    to
}

// Refusal 2 of a room with that many places. A character takes two signals at most, so only a shorter room has to be measured.
fn measure(judged: Judged, case: Case, places: usize) -> Result<(), EncodeError>
    ensures ok { IsOk result → length (encoded case judged.entry.text.now) ≤ places }
    ensures err { IfErr result (λ e. (room : List ℕ) → length room ≡ places → Encodes judged.entry.text.now case room (Err e) room) }
{
    if places < 2 * judged.text.len() {
        let needed = room_for(judged, case);
        if places < needed {
            return Err(EncodeError::NoRoom(needed));
        }
    }
    Ok(())
}

// Encodes `text`, which starts in `case`, into `room` (01, Text), small letters as the capitals (02, T-01): answers how many signals
// were written and the case after the last. Printing them from that case gives the text in capitals. Refuses 5, then 1, then 2 (01,
// Numbers returned), the index beside 1 being that in the text as it was typed; a refusal leaves the room as it was.
pub fn encode(text: &[u8], case: Case, room: &mut [u8]) -> Result<Written, EncodeError>
    ensures { Encodes text.now case room.old result room.new }
{
    let judged = judge(text)?;
    measure(judged, case, room.len())?;
    Ok(write(judged, case, room))
}

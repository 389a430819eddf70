// Printing: signals to operator's characters (01, Text). The list is judged whole before a byte is written (`judging`), and then
// printed run by run: a run is the words up to the next shift to the other case. The two printing functions hand on to each
// other at the shifts, but only DEPTH deep, and `write` goes on from where they return: the stack does not grow with the list.
#![tactic(auto)]

ghost use Rattle.std.specs.Prelude.{true, ◌≡◌, ◌+◌, ◌≤◌, List, ℕ, Err, IsOk, IfOk, IfErr, length, drop};
ghost use Rattle.signals.specs.declared.Case.{Case};
ghost use Rattle.signals.specs.declared.Case.TheVariants.{Letters, Figures};
ghost use Rattle.signals.specs.Cases.{other, shift_to};
ghost use Rattle.signals.specs.Numbers.{first_not};
ghost use Rattle.text.specs.Printing.{may_print, bytes_of, printed, Prints};
ghost use Rattle.printing.specs.Glyph.{column, put_of};
ghost use Rattle.printing.specs.Run.{Ran, Reaches, Typed};

use signals::{Case, Row};
use text::{PrintError, Written};

// The byte that the error mark prints (01, Text).
const STAR: u8 = 42;

// How many times the two printing functions hand on to each other before they return to `write`.
const DEPTH: u8 = 2;

// The signals of a list, at most (01, Numbers returned).
const MOST_SIGNALS: usize = 8192;

// A list that is judged: short enough, and each word of it may stand.
#[derive(Clone, Copy)]
struct Judged<'a> {
    words: &'a [u8],
    ghost short: { length words.now ≤ 8192 },
    ghost may: { length words.now ≤ first_not may_print words.now },
}

// Refusals 7 and 3, which come whatever the room is.
fn judge(words: &[u8]) -> Result<Judged<'_>, PrintError>
    ensures ok { IfOk result (λ judged. judged.words.now ≡ words.now) }
    ensures err { IfErr result (λ e. (c : Case) (room : List ℕ) → Prints words.now c room (Err e) room) }
{
    if MOST_SIGNALS < words.len() {
        return Err(PrintError::TooLong);
    }
    let bad = judging::first_bad(words);
    if bad < words.len() {
        return Err(PrintError::BadWord(bad));
    }
    Ok(Judged { words })
}

// Where printing stands: the next word, the place past the last byte, and the case in force.
#[derive(Clone, Copy)]
struct Reached {
    at: usize,
    to: usize,
    case: Case,
}

// The byte of a row in a case.
fn column_of(case: Case, row: Row) -> u8
    ensures { result ≡ column case row }
{
    match case {
        Case::Letters => row.1,
        Case::Figures => row.2,
    }
}

// The byte that a word prints in a case; 0 where it prints none. A word that may stand is the error mark, or a traffic signal, which has
// a row: the search always hits.
// KEPT: as in `signals::meaning`, a search by the library's method takes more flash (02, T-04).
pub fn glyph(case: Case, word: u8) -> u8
    requires { may_print word ≡ true }
    ensures { put_of result ≡ bytes_of case word }
{
    if word == judging::ERROR_MARK {
        return STAR;
    }
    let rows = signals::rows();
    let mut place = 0;
    while rows[place].0 != word {
        place += 1;
    }
    column_of(case, rows[place])
}

// The shift that leaves a case.
fn leaving(case: Case) -> u8
    ensures { result ≡ shift_to (other case) }
{
    case.other().shift()
}

// Prints the words from `at` on, into the room from `to` on, up to the shift that leaves the case, if one comes: it stands at
// that shift then, still in the case of the run.
fn print_run(case: Case, judged: Judged, at: usize, room: &mut [u8], to: usize) -> Reached
    requires { (at ≤ length judged.words.now) × (to + length (printed case (drop at judged.words.now)) ≤ length room.old) }
    ensures { Ran case judged.entry.words.now at room.old to result room.new }
{
    let mut next = to;
    for i in at..judged.words.len() {
        let word = judged.words[i];
        let byte = glyph(case, word);
        if byte == 0 {
            if word == leaving(case) {
                return Reached {
                    at: i,
                    to: next,
                    case,
                };
            }
        } else {
            room[next] = byte;
            next += 1;
        }
    }
    Reached {
        at: judged.words.len(),
        to: next,
        case,
    }
}

// KEPT: 01 names the form (R-164): two printing functions, one for each case, that call each other; one over the case would be shorter.
// Prints the words from `at` on in letters case, into the room from `to` on, until figures hands on to `print_figures`. At depth
// 0 it returns instead: past the shift, and in the case that the shift calls for.
#[cycle(print_figures_print_letters)]
fn print_letters(judged: Judged, at: usize, room: &mut [u8], to: usize, depth: u8) -> Reached
    requires { (at ≤ length judged.words.now) × (to + length (printed Letters (drop at judged.words.now)) ≤ length room.old) }
    ensures { Reaches Letters judged.entry.words.now at room.old to result room.new }
{
    let run = print_run(Case::Letters, judged, at, room, to);
    if judged.words.len() <= run.at {
        return run;
    }
    let past = run.at + 1;
    if depth == 0 {
        return Reached {
            at: past,
            to: run.to,
            case: Case::Figures,
        };
    }
    print_figures(judged, past, room, run.to, depth - 1)
}

// The same in figures case, until letters hands on to `print_letters`.
#[cycle(print_figures_print_letters)]
fn print_figures(judged: Judged, at: usize, room: &mut [u8], to: usize, depth: u8) -> Reached
    requires { (at ≤ length judged.words.now) × (to + length (printed Figures (drop at judged.words.now)) ≤ length room.old) }
    ensures { Reaches Figures judged.entry.words.now at room.old to result room.new }
{
    let run = print_run(Case::Figures, judged, at, room, to);
    if judged.words.len() <= run.at {
        return run;
    }
    let past = run.at + 1;
    if depth == 0 {
        return Reached {
            at: past,
            to: run.to,
            case: Case::Letters,
        };
    }
    print_letters(judged, past, room, run.to, depth - 1)
}

// KEPT: a turn passes as many words as its runs have, so no `for` fits.
// Prints all the words from the start of the room. Each turn passes a word at least, so it ends.
fn write(judged: Judged, case: Case, room: &mut [u8]) -> Reached
    requires { length (printed case judged.words.now) ≤ length room.old }
    ensures { Typed case judged.entry.words.now room.old result room.new }
{
    let mut stands = Reached { at: 0, to: 0, case };
    while stands.at < judged.words.len() {
        let at = stands.at;
        let to = stands.to;
        let in_force = stands.case;
        stands = match in_force {
            Case::Letters => print_letters(judged, at, room, to, DEPTH),
            Case::Figures => print_figures(judged, at, room, to, DEPTH),
        };
    }
    stands
}

// Refusal 2 of a room with that many places. A word prints one byte at most, so a room as long as the list is never too short.
fn measure(judged: Judged, places: usize) -> Result<(), PrintError>
    ensures ok { IsOk result → (c : Case) → length (printed c judged.entry.words.now) ≤ places }
    ensures err { IfErr result (λ e. (c : Case) (room : List ℕ) → length room ≡ places → Prints judged.entry.words.now c room (Err e) room) }
{
    let short = places < judged.words.len();
    if short {
        let need = judging::needed(judged.words);
        if places < need {
            return Err(PrintError::NoRoom(need));
        }
    }
    Ok(())
}

// Prints `words`, which start in `case`, into `room` (01, Text): answers how many bytes were written and the case after
// the last signal. Refuses 7, then 3, then 2 (01, Numbers returned); a refusal leaves the room as it was.
pub fn print(words: &[u8], case: Case, room: &mut [u8]) -> Result<Written, PrintError>
    ensures { Prints words.now case room.old result room.new }
{
    let judged = judge(words)?;
    measure(judged, room.len())?;
    let end = write(judged, case, room);
    Ok(Written {
        count: end.to,
        ends: end.case,
    })
}

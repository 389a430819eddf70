// A station's printed signals put into its room block by block, with the case carried from one block to the next (02, T-07; 01, Text). All
// bytes are counted; where they are to be written, those that find no room are dropped.
#![tactic(auto)]

ghost use Rattle.std.specs.Prelude.{◌≡◌, ◌+◌, ◌<◌, ◌^◌};
ghost use Rattle.text.specs.Printing.{case_at};
ghost use Rattle.typing.specs.Typing.{MayType, MayTypeAll, signal_in, signals_in, Types};

use mode_a::Words;
use signals::Case;

// What a station has printed so far: how many bytes, and the case in force.
#[derive(Clone, Copy)]
pub struct Typed {
    pub to: usize,
    pub case: Case,
}

// The case after a signal.
fn case_after(case: Case, word: u8) -> Case
    ensures { result ≡ case_at case word }
{
    match word {
        signals::LETTERS => Case::Letters,
        signals::FIGURES => Case::Figures,
        _ => case,
    }
}

// Puts one signal, or nothing where the word is 0.
fn put_word(word: u8, typed: Typed, room: &mut [u8], write: bool) -> Typed
    requires { MayType word × (typed.to + 1 < 2 ^ 64) }
    ensures { Types (signal_in word) typed write room.old result room.new }
{
    if word == 0 {
        return typed;
    }
    let byte = printing::glyph(typed.case, word);
    let case = case_after(typed.case, word);
    if byte == 0 {
        return Typed { case, ..typed };
    }
    let fits = typed.to < room.len();
    if write & fits {
        room[typed.to] = byte;
    }
    Typed {
        to: typed.to + 1,
        case,
    }
}

// Puts the signals that a step has printed, which have 0 behind them. Where `write` is false they are counted, and the room stays as it is.
pub fn put(words: Words, typed: Typed, room: &mut [u8], write: bool) -> Typed
    requires { MayTypeAll words × (typed.to + 3 < 2 ^ 64) }
    ensures { Types (signals_in words) typed write room.old result room.new }
{
    let one = put_word(words.0, typed, room, write);
    let two = put_word(words.1, one, room, write);
    put_word(words.2, two, room, write)
}

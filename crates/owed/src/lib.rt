// What is owed of an answer-back (02, T-06; 001, 3.7.13.2): its next block, and what is owed behind that one. The answer is the code in
// threes, the last block filled with β, then two blocks of βββ, and then the over where the direction is to be turned back.
#![tactic(auto)]

ghost use Rattle.std.specs.Prelude.{◌≡◌, get_or};
ghost use Rattle.mode_a.specs.Answerback.{block_owed, owed_then, owed_exists, βββ};
ghost use Rattle.owed.specs.Blocks.{Filled, blocks_in, orβ, block_at};

use mode_a::{Code, Owed, Words};

const BETAS: Words = Words(signals::BETA, signals::BETA, signals::BETA);

// figures, + and ?
const OVER: Words = Words(signals::FIGURES, 99, 114);

// How many blocks the code fills.
fn filled(length: u8) -> u8
    ensures { Filled length result }
{
    ((length as u16 + 2) / 3) as u8
}

// Whether the answer has the block that is owed.
#[tactic(auto, using(crate::proofs::BlockLaws::exists_back, crate::proofs::BlockLaws::exists_keep), unfolding(mode_a::specs::Answerback::owed_exists))]
pub fn exists(code: Code, owed: Owed) -> bool
    ensures { result ≡ owed_exists code owed }
{
    match owed {
        Owed::Nothing => true,
        Owed::Back(index) => index < filled(code.length) + 3,
        Owed::Keep(index) => index < filled(code.length) + 2,
    }
}

// The words of the code that stand at the index of a block.
fn words_at(code: Code, index: u8) -> Words
    ensures { result ≡ get_or (blocks_in code) index βββ }
{
    match index {
        0 => code.first,
        1 => code.second,
        2 => code.third,
        3 => code.fourth,
        4 => code.fifth,
        5 => code.sixth,
        6 => code.seventh,
        _ => BETAS,
    }
}

// The word, or β behind the end of the code.
fn or_beta(word: u8, place: u16, length: u8) -> u8
    ensures { result ≡ orβ word place length }
{
    if place < length as u16 {
        word
    } else {
        signals::BETA
    }
}

// The block of the code at an index, with β behind its end: all β where the code is at its end before it.
#[tactic(auto, unfolding(crate::specs::Blocks::block_at))]
fn code_block(code: Code, index: u8) -> Words
    ensures { result ≡ block_at code index }
{
    let words = words_at(code, index);
    let place = index as u16 * 3;
    Words(
        or_beta(words.0, place, code.length),
        or_beta(words.1, place + 1, code.length),
        or_beta(words.2, place + 2, code.length),
    )
}

// The block that is owed next; βββ where none is.
#[tactic(auto, using(crate::proofs::BlockLaws::block_keep, crate::proofs::BlockLaws::block_none))]
pub fn block(code: Code, owed: Owed) -> Words
    ensures { result ≡ block_owed code owed }
{
    match owed {
        Owed::Nothing => BETAS,
        Owed::Back(index) => {
            if index == filled(code.length) + 2 {
                OVER
            } else {
                code_block(code, index)
            }
        }
        Owed::Keep(index) => code_block(code, index),
    }
}

// What is owed behind that block.
#[tactic(auto, using(crate::proofs::BlockLaws::then_none))]
pub fn then(code: Code, owed: Owed) -> Owed
    ensures { result ≡ owed_then code owed }
{
    match owed {
        Owed::Nothing => Owed::Nothing,
        Owed::Back(index) => {
            if index < filled(code.length) + 2 {
                Owed::Back(index + 1)
            } else {
                Owed::Nothing
            }
        }
        Owed::Keep(index) => {
            if index < filled(code.length) + 1 {
                Owed::Keep(index + 1)
            } else {
                Owed::Nothing
            }
        }
    }
}

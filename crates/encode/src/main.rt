// Encodes standard input, from letters case, small letters as capitals, and writes its signals (docs/FORMATS.md).
#![tactic(auto)]

use filters::Streams;
use signals::Case;
use std::process::ExitCode;
use text::{EncodeError, Written};

// The signals written, or the refusal told.
fn tell(
    stream: &mut Streams,
    answer: Result<Written, EncodeError>,
    room: &[u8],
) -> Result<(), ExitCode> {
    match answer {
        Ok(Written { count, ends: _ }) => {
            for &word in room.iter().take(count) {
                stream.put_word(word);
            }
            stream.end_line();
            stream.finish(b"encode")
        }
        Err(EncodeError::TooLong) => Err(filters::tell_refusal(
            stream.stands().rt,
            b"encode",
            5,
            4096,
            b"over ",
            b" characters",
        )),
        Err(EncodeError::NoSignal(index)) => Err(filters::tell_refusal(
            stream.stands().rt,
            b"encode",
            1,
            index as u64,
            b"the character at index ",
            b" has no signal",
        )),
        // not reached: no text that is not too long needs more
        Err(EncodeError::NoRoom(needed)) => Err(filters::tell_refusal(
            stream.stands().rt,
            b"encode",
            2,
            needed as u64,
            b"room for ",
            b" is needed",
        )),
    }
}

fn run(rt: HostRuntime) -> Result<(), ExitCode> {
    filters::no_words(rt, b"encode")?;
    let mut input = [0u8; 4096];
    let mut output = [0u8; 4096];
    let mut stream = Streams::new(rt, &mut input, &mut output);
    // one character over the limit is enough to refuse
    let mut characters = [0u8; 4097];
    let count = stream.record(&mut characters);
    stream.check(b"encode")?;
    let mut room = [0u8; 8192];
    let answer = encoding::encode(&characters[..count], Case::Letters, &mut room);
    tell(&mut stream, answer, &room)
}

fn main(rt: HostRuntime) -> ExitCode {
    filters::status_after(run(rt))
}

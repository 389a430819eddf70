// Prints the signals that standard input lists as numbers, from letters case (docs/FORMATS.md).
#![tactic(auto)]

use filters::Streams;
use signals::Case;
use std::process::ExitCode;
use text::{PrintError, Written};

// The bytes written, or the refusal told.
fn tell(
    stream: &mut Streams,
    answer: Result<Written, PrintError>,
    room: &[u8],
) -> Result<(), ExitCode> {
    match answer {
        Ok(Written { count, ends: _ }) => {
            stream.put_first(room, count);
            stream.finish(b"print")
        }
        Err(PrintError::TooLong) => Err(filters::tell_refusal(
            stream.stands().rt,
            b"print",
            7,
            8192,
            b"over ",
            b" signals",
        )),
        Err(PrintError::BadWord(index)) => Err(filters::tell_refusal(
            stream.stands().rt,
            b"print",
            3,
            index as u64,
            b"the word at index ",
            b" is neither traffic nor the error mark",
        )),
        // not reached: no list that is not too long needs more
        Err(PrintError::NoRoom(needed)) => Err(filters::tell_refusal(
            stream.stands().rt,
            b"print",
            2,
            needed as u64,
            b"room for ",
            b" is needed",
        )),
    }
}

fn run(rt: HostRuntime) -> Result<(), ExitCode> {
    filters::no_words(rt, b"print")?;
    let mut input = [0u8; 4096];
    let mut output = [0u8; 4096];
    let mut stream = Streams::new(rt, &mut input, &mut output);
    // one signal over the limit is enough to refuse
    let mut words = [0u8; 8193];
    let count = stream.list(b"print", &mut words)?;
    let mut room = [0u8; 8192];
    let answer = printing::print(&words[..count], Case::Letters, &mut room);
    tell(&mut stream, answer, &room)
}

fn main(rt: HostRuntime) -> ExitCode {
    filters::status_after(run(rt))
}

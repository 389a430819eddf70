// Writes the word of every slot of mode B for the text's signals that standard input lists as numbers (docs/FORMATS.md).
#![tactic(auto)]

use filters::Streams;
use mode_b::SlotError;
use std::process::ExitCode;

// Every slot's word put, up to a number that no sending reaches. A refusal, which is told, comes at the first slot.
fn put_slots(stream: &mut Streams, text: &[u8]) -> Result<(), ExitCode> {
    for number in 0..65536 {
        match sending::slot(text, number) {
            Ok(word) => stream.put_word(word),
            Err(SlotError::TooLong) => {
                return Err(filters::tell_refusal(
                    stream.stands().rt,
                    b"send",
                    7,
                    8192,
                    b"over ",
                    b" signals",
                ));
            }
            Err(SlotError::BadWord(index)) => {
                return Err(filters::tell_refusal(
                    stream.stands().rt,
                    b"send",
                    3,
                    index as u64,
                    b"the word at index ",
                    b" is not traffic",
                ));
            }
            Err(SlotError::PastLast(_)) => return Ok(()),
        }
    }
    Ok(())
}

fn run(rt: HostRuntime) -> Result<(), ExitCode> {
    filters::no_words(rt, b"send")?;
    let mut input = [0u8; 4096];
    let mut output = [0u8; 4096];
    let mut stream = Streams::new(rt, &mut input, &mut output);
    // one signal over the limit is enough to refuse
    let mut words = [0u8; 8193];
    let count = stream.list(b"send", &mut words)?;
    let sent = put_slots(&mut stream, &words[..count]);
    stream.end_line();
    stream.finish(b"send")?;
    sent
}

fn main(rt: HostRuntime) -> ExitCode {
    filters::status_after(run(rt))
}

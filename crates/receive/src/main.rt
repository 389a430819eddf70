// A fresh receiver of mode B hears the words that standard input lists as numbers, and writes what it prints (docs/FORMATS.md).
#![tactic(auto)]

use filters::Streams;
use mode_b::Receiver;
use numbers::NumberError;
use std::process::ExitCode;

// Hears the words up to the end of the input, or up to what is no number.
fn hear(stream: &mut Streams) -> Result<(), NumberError> {
    let mut receiver = Receiver::fresh();
    for _ in 0..u64::MAX {
        let Some(word) = stream.number()? else {
            return Ok(());
        };
        match receiving::receive(receiver, word) {
            Ok(heard) => {
                receiver = heard.receiver;
                if let Some(printed) = heard.printed {
                    stream.put_word(printed);
                }
            }
            // not reached: a receiver that has answered is sound
            Err(_) => return Ok(()),
        }
    }
    Ok(())
}

// What is wrong is told when the line is ended and written.
fn run(rt: HostRuntime) -> Result<(), ExitCode> {
    filters::no_words(rt, b"receive")?;
    let mut input = [0u8; 4096];
    let mut output = [0u8; 4096];
    let mut stream = Streams::new(rt, &mut input, &mut output);
    let heard = hear(&mut stream);
    stream.end_line();
    stream.finish(b"receive")?;
    heard.map_err(|error| filters::tell_number(rt, b"receive", error))
}

fn main(rt: HostRuntime) -> ExitCode {
    filters::status_after(run(rt))
}

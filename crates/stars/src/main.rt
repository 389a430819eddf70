// A fresh receiver of mode B hears the words that standard input lists as numbers, and tells why it prints each error mark (docs/FORMATS.md).
#![tactic(auto)]

use filters::Streams;
use mode_b::Receiver;
use numbers::{NumberError, Room};
use reasons::{Star, StarError};
use std::process::ExitCode;

// The line of an error mark that is printed at a slot.
fn put_mark(stream: &mut Streams, slot: u64, star: Star) {
    // no line comes to be full
    let mut room = [0u8; 48];
    let mut line = Room::new(&mut room);
    filters::put_decimal(&mut line, slot);
    line.put(32);
    written::put_star(&mut line, Some(star));
    stream.put_line(line);
}

fn mark(stream: &mut Streams, slot: u64, starred: Result<Option<Star>, StarError>) {
    match starred {
        Ok(Some(star)) => put_mark(stream, slot, star),
        // a refusal is not reached, as below
        Ok(None) | Err(_) => {}
    }
}

// Hears the words up to the end of the input, or up to what is no number.
fn hear(stream: &mut Streams) -> Result<(), NumberError> {
    let mut receiver = Receiver::fresh();
    for slot in 0..u64::MAX {
        let Some(word) = stream.number()? else {
            return Ok(());
        };
        mark(stream, slot, starring::star(receiver, word));
        match receiving::receive(receiver, word) {
            Ok(heard) => receiver = heard.receiver,
            // not reached: a receiver that has answered is sound
            Err(_) => return Ok(()),
        }
    }
    Ok(())
}

// What is wrong is told when the lines are written.
fn run(rt: HostRuntime) -> Result<(), ExitCode> {
    filters::no_words(rt, b"stars")?;
    let mut input = [0u8; 4096];
    let mut output = [0u8; 4096];
    let mut stream = Streams::new(rt, &mut input, &mut output);
    let heard = hear(&mut stream);
    stream.finish(b"stars")?;
    heard.map_err(|error| filters::tell_number(rt, b"stars", error))
}

fn main(rt: HostRuntime) -> ExitCode {
    filters::status_after(run(rt))
}

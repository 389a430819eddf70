// A fresh slave hears standard input, three bytes to a burst (docs/FORMATS.md; 01, Worked examples).
#![tactic(auto)]

use filters::{State, Streams};
use mode_a::{Offer, Station, Words};
use numbers::Room;
use signals::Case;
use std::process::ExitCode;
use text::{PrintError, Written};

// The words of + (Z) and of ? (B), which stand in the over of an answer-back.
const CROSS: u8 = 99;

const QUERY: u8 = 114;

fn put_name(line: &mut Room, word: u8) {
    match word {
        signals::CS1 => line.put_all(b"CS1"),
        signals::CS2 => line.put_all(b"CS2"),
        signals::CS3 => line.put_all(b"CS3"),
        signals::RQ => line.put_all(b"RQ"),
        signals::ALPHA => line.put_all(b"alpha"),
        signals::BETA => line.put_all(b"beta"),
        signals::FIGURES => line.put_all(b"figures"),
        CROSS => line.put_all(b"Z"),
        QUERY => line.put_all(b"B"),
        // a slave without offers sends no other
        _ => line.put_number(word),
    }
}

fn put_next(line: &mut Room, word: u8) {
    if word != 0 {
        line.put(b'.');
        put_name(line, word);
    }
}

// The words sent, by name. Only silence begins with 0.
fn put_sent(line: &mut Room, sent: Words) {
    if sent.0 == 0 {
        line.put_all(b"silent");
    } else {
        put_name(line, sent.0);
        put_next(line, sent.1);
        put_next(line, sent.2);
    }
}

// The first `count` bytes in hexadecimal.
fn put_bytes(line: &mut Room, bytes: [u8; 3], count: usize) {
    if count == 0 {
        line.put_all(b"none");
    }
    for &byte in bytes.iter().take(count) {
        line.put_hex(byte);
    }
}

// Prints the signals, of which there is one at least: 0 stands behind the last.
fn print(printed: Words, case: Case, room: &mut [u8]) -> Result<Written, PrintError> {
    let words = [printed.0, printed.1, printed.2];
    let count = words.iter().position(|word| *word == 0).unwrap_or(3);
    printing::print(&words[..count], case, room)
}

// Prints the signals from the case, if there are any, and puts the bytes that they give; answers the case after them.
fn put_printed(line: &mut Room, printed: Words, case: Case) -> Case {
    let mut room = [0u8; 3];
    if printed.0 == 0 {
        put_bytes(line, room, 0);
        return case;
    }
    let answer = print(printed, case, &mut room);
    match answer {
        Ok(Written { count, ends }) => {
            put_bytes(line, room, count);
            ends
        }
        // not reached: printed signals are traffic, and three of them need no more room
        Err(_) => case,
    }
}

// What goes from step to step: the slave, and the case that its printing has come to.
#[derive(Clone, Copy)]
struct Hearing {
    slave: Station,
    case: Case,
}

impl Hearing {
    // One step, and its line. No fresh slave without offers comes to a refusal.
    fn hear(&mut self, stream: &mut Streams, burst: Words, step: u64) {
        let reply = fields::reply_of(station::step(self.slave, burst, Offer::Nothing));
        self.slave = reply.station;
        let mut room = [0u8; 64];
        let mut line = Room::new(&mut room);
        filters::put_decimal(&mut line, step);
        line.put(32);
        put_sent(&mut line, reply.sent);
        line.put(32);
        self.case = put_printed(&mut line, reply.printed, self.case);
        stream.put_line(line);
    }
}

fn run(rt: HostRuntime) -> Result<(), ExitCode> {
    filters::no_words(rt, b"hear")?;
    let mut input = [0u8; 4096];
    let mut output = [0u8; 4096];
    let mut stream = Streams::new(rt, &mut input, &mut output);
    stream.put_all(b"step answer printed\n");
    let mut hearing = Hearing {
        slave: Station::fresh_slave(),
        case: Case::Letters,
    };
    for step in 1..=u64::MAX {
        // a short last burst keeps its zeros, and one that a failed read has cut short is none
        let mut burst = [0u8; 3];
        if stream.record(&mut burst) == 0 || stream.stands().state == State::Unread {
            break;
        }
        hearing.hear(&mut stream, Words(burst[0], burst[1], burst[2]), step);
    }
    stream.finish(b"hear")
}

fn main(rt: HostRuntime) -> ExitCode {
    filters::status_after(run(rt))
}

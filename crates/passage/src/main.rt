// Runs two stations over a record of a passage, and writes what each of them printed (docs/FORMATS.md).
#![tactic(auto)]

use entries::{PassError, Printed};
use filters::Streams;
use numbers::Room;
use std::process::ExitCode;

// What a station printed: its name, how many bytes, and these, which are the first of the room.
fn put_station(stream: &mut Streams, name: &[u8], count: usize, room: &[u8]) {
    let mut head = [0u8; 32];
    let mut line = Room::new(&mut head);
    line.put_all(name);
    filters::put_decimal(&mut line, count as u64);
    stream.put_line(line);
    stream.put_first(room, count);
    stream.put_all(b"\n");
}

// Tells a refusal with the place of the entry: unlike an index, it does not stand in the words.
fn refuse(rt: HostRuntime, number: &[u8], place: usize, words: &[u8]) -> Result<(), ExitCode> {
    Err(filters::tell_value(rt, b"passage", number, place as u64, words))
}

// What both printed written, or the refusal told.
fn tell(
    stream: &mut Streams,
    answer: Result<Printed, PassError>,
    master: &[u8],
    slave: &[u8],
) -> Result<(), ExitCode> {
    match answer {
        Ok(printed) => {
            put_station(stream, b"master ", printed.master, master);
            put_station(stream, b"slave ", printed.slave, slave);
            stream.finish(b"passage")
        }
        Err(PassError::UnknownKind(place)) => refuse(
            stream.stands().rt,
            b"refused 10 ",
            place,
            b": no such kind",
        ),
        Err(PassError::CutShort(place)) => refuse(
            stream.stands().rt,
            b"refused 11 ",
            place,
            b": the body is cut short",
        ),
        Err(PassError::BadBurst(place)) => refuse(
            stream.stands().rt,
            b"refused 12 ",
            place,
            b": a burst out of turn, or bits 3 to 7 set",
        ),
        Err(PassError::StillOffered(place)) => refuse(
            stream.stands().rt,
            b"refused 13 ",
            place,
            b": the last offer is not taken yet",
        ),
        Err(PassError::BadWord(place)) => refuse(
            stream.stands().rt,
            b"refused 3 ",
            place,
            b": a word that is neither traffic nor beta",
        ),
        // not reached: no record that is not too long needs more
        Err(PassError::NoRoom(needed)) => Err(filters::tell_refusal(
            stream.stands().rt,
            b"passage",
            2,
            needed as u64,
            b"room for ",
            b" is needed",
        )),
    }
}

// The record and the two rooms take three quarters of a megabyte of the stack.
fn run(rt: HostRuntime) -> Result<(), ExitCode> {
    filters::no_words(rt, b"passage")?;
    let mut input = [0u8; 4096];
    let mut output = [0u8; 4096];
    let mut stream = Streams::new(rt, &mut input, &mut output);
    // one byte over the limit is enough to tell
    let mut record = [0u8; 262145];
    let count = stream.record(&mut record);
    stream.check(b"passage")?;
    if 262144 < count {
        return Err(filters::tell_value(rt, b"passage", b"too long: over ", 262144, b" bytes"));
    }
    let mut master = [0u8; 262144];
    let mut slave = [0u8; 262144];
    let answer = passing::passage(&record[..count], &mut master, &mut slave);
    tell(&mut stream, answer, &master, &slave)
}

fn main(rt: HostRuntime) -> ExitCode {
    filters::status_after(run(rt))
}

// One public call a record, so that rooms, cases, lengths, receivers and reasons can be tried that no filter reaches (docs/FORMATS.md).
#![tactic(auto)]

ghost use Rattle.std.specs.Prelude.{◌<◌, IfSome, IfOk};

use entries::{PassError, Printed};
use filters::Streams;
use identity::Seven;
use mode_a::{BadCode, BadIdentity, Code, Identity, Refusal, Station, Words};
use mode_b::{Heard, Hearing, Phase, Phasing, Receiver, SlotError, Wait};
use numbers::Room;
use reasons::Reason;
use signals::Case;
use std::process::ExitCode;
use text::{EncodeError, PrintError, Written};

// The bytes that a lent room has at most, and those of a list.
const MOST_ROOM: usize = 8192;

const MOST_LISTED: usize = 8193;

// Why what stands at a place is no record.
#[derive(Clone, Copy, PartialEq, Eq)]
enum BadRecord {
    NoKind,
    CutShort,
    Room,
    Length,
}

fn two_bytes(low: u8, high: u8) -> usize
    ensures { result < 65536 }
{
    u16::from_le_bytes([low, high]) as usize
}

// Two capital hexadecimal digits for each byte.
fn put_hex(stream: &mut Streams, bytes: &[u8]) {
    for &byte in bytes {
        let mut digits = [0u8; 2];
        Room::new(&mut digits).put_hex(byte);
        stream.put_all(&digits);
    }
}

// The whole of a lent room, or - where it has no length.
fn put_room(stream: &mut Streams, room: &[u8]) {
    if room.is_empty() {
        stream.put_all(b" -");
    } else {
        stream.put_all(b" ");
        put_hex(stream, room);
    }
}

fn put_ok(line: &mut Room, written: usize, ends: Case) {
    line.put_all(b"ok ");
    filters::put_decimal(line, written as u64);
    fields::put_case(line, ends);
}

fn put_encoded(line: &mut Room, answer: Result<Written, EncodeError>) {
    match answer {
        Ok(Written { count, ends }) => put_ok(line, count, ends),
        Err(EncodeError::TooLong) => filters::put_refusal(line, 5, 4096),
        Err(EncodeError::NoSignal(index)) => filters::put_refusal(line, 1, index as u64),
        Err(EncodeError::NoRoom(needed)) => filters::put_refusal(line, 2, needed as u64),
    }
}

fn put_printed(line: &mut Room, answer: Result<Written, PrintError>) {
    match answer {
        Ok(Written { count, ends }) => put_ok(line, count, ends),
        Err(PrintError::TooLong) => filters::put_refusal(line, 7, 8192),
        Err(PrintError::BadWord(index)) => filters::put_refusal(line, 3, index as u64),
        Err(PrintError::NoRoom(needed)) => filters::put_refusal(line, 2, needed as u64),
    }
}

fn put_passed(line: &mut Room, answer: Result<Printed, PassError>) {
    match answer {
        Ok(Printed { master, slave }) => {
            line.put_all(b"ok ");
            filters::put_decimal(line, master as u64);
            line.put(32);
            filters::put_decimal(line, slave as u64);
        }
        Err(PassError::UnknownKind(place)) => filters::put_refusal(line, 10, place as u64),
        Err(PassError::CutShort(place)) => filters::put_refusal(line, 11, place as u64),
        Err(PassError::BadBurst(place)) => filters::put_refusal(line, 12, place as u64),
        Err(PassError::StillOffered(place)) => filters::put_refusal(line, 13, place as u64),
        Err(PassError::BadWord(place)) => filters::put_refusal(line, 3, place as u64),
        Err(PassError::NoRoom(needed)) => filters::put_refusal(line, 2, needed as u64),
    }
}

// The call of a record of kind E, which takes small letters as the capitals, or of kind P.
fn put_call(line: &mut Room, kind: u8, case: Case, list: &[u8], room: &mut [u8]) {
    if kind == b'E' {
        put_encoded(line, encoding::encode(list, case, room));
    } else {
        put_printed(line, printing::print(list, case, room));
    }
}

// A call of kind E or P.
fn call(stream: &mut Streams, kind: u8, case: Case, list: &[u8], room: &mut [u8]) {
    let mut said = [0u8; 32];
    let mut line = Room::new(&mut said);
    put_call(&mut line, kind, case, list, room);
    stream.put_all(line.bytes());
    put_room(stream, room);
    stream.put_all(b"\n");
}

// A call of kind V.
fn pass(stream: &mut Streams, list: &[u8], master: &mut [u8], slave: &mut [u8]) {
    let mut said = [0u8; 48];
    let mut line = Room::new(&mut said);
    put_passed(&mut line, passing::passage(list, master, slave));
    stream.put_all(line.bytes());
    put_room(stream, master);
    put_room(stream, slave);
    stream.put_all(b"\n");
}

// A call of kind S.
fn put_slot(line: &mut Room, slot: Result<u8, SlotError>) {
    match slot {
        Ok(word) => {
            line.put_all(b"ok ");
            line.put_number(word);
        }
        Err(SlotError::TooLong) => filters::put_refusal(line, 7, 8192),
        Err(SlotError::BadWord(index)) => filters::put_refusal(line, 3, index as u64),
        Err(SlotError::PastLast(slots)) => filters::put_refusal(line, 6, slots as u64),
    }
}

fn four_bytes(head: &[u8; 84]) -> usize {
    u32::from_le_bytes([head[0], head[1], head[2], head[3]]) as usize
}

// A call of kind M.
fn put_meaning(line: &mut Room, byte: u8) {
    line.put_number(signals::meaning(byte));
    fields::put_flag(line, signals::intact(byte));
}

fn phasing_of(byte: u8) -> Phasing {
    if byte % 2 == 0 {
        Phasing::One
    } else {
        Phasing::Two
    }
}

// The receiver of a record of kind R or Y. The kind does not stand in the head: byte 1 of the record stands at 0.
fn receiver_of(head: &[u8; 84]) -> Receiver {
    if head[0] % 2 == 0 {
        return Receiver {
            hearing: Hearing::Searching(head[1], phasing_of(head[2])),
        };
    }
    if head[8] != 0 {
        return Receiver {
            hearing: Hearing::Waiting(Wait {
                word: head[3],
                printing: head[7] % 2 == 1,
                left: head[8],
            }),
        };
    }
    Receiver {
        hearing: Hearing::InPhase(Phase {
            first: head[3],
            second: head[4],
            third: head[5],
            dx: head[6] % 2 == 0,
            printing: head[7] % 2 == 1,
        }),
    }
}

// The run, and its last signal: a run of 0 has none.
fn put_searching(line: &mut Room, run: u8, last: Phasing) {
    line.put_all(b"searching");
    fields::put_number(line, run);
    match last {
        _ if run == 0 => line.put_all(b" none"),
        Phasing::One => line.put_all(b" alpha"),
        Phasing::Two => line.put_all(b" RQ"),
    }
}

// The oldest DX word: where a DX slot comes next, it is settled.
fn oldest(p: Phase) -> u8 {
    if p.dx { 0 } else { p.first }
}

fn put_next(line: &mut Room, dx: bool) {
    line.put_all(if dx { b" dx" } else { b" rx" });
}

// The DX words, the next slot, whether printing has begun, and a wait of 0.
fn put_phase(line: &mut Room, p: Phase) {
    line.put_all(b"phase");
    fields::put_number(line, oldest(p));
    fields::put_number(line, p.second);
    fields::put_number(line, p.third);
    put_next(line, p.dx);
    fields::put_flag(line, p.printing);
    line.put_all(b" 0");
}

// The one DX word that waits, the next slot, whether printing has begun, and the wait.
fn put_wait(line: &mut Room, v: Wait) {
    line.put_all(b"phase");
    fields::put_number(line, v.word);
    line.put_all(b" 0 0");
    put_next(line, v.left == 2);
    fields::put_flag(line, v.printing);
    fields::put_number(line, v.left);
}

fn put_hearing(line: &mut Room, receiver: Receiver) {
    match receiver.hearing {
        Hearing::Searching(run, last) => put_searching(line, run, last),
        Hearing::InPhase(p) => put_phase(line, p),
        Hearing::Waiting(v) => put_wait(line, v),
    }
}

fn put_heard(line: &mut Room, heard: Heard) {
    put_hearing(line, heard.receiver);
    line.put_all(b" |");
    fields::put_number(line, heard.printed.unwrap_or(0));
}

// A call of kind R.
fn put_received(line: &mut Room, head: &[u8; 84]) {
    let received = receiving::receive(receiver_of(head), head[9]);
    match received {
        Ok(heard) => put_heard(line, heard),
        Err(_) => filters::put_refusal(line, 4, 0),
    }
}

// A call of kind Y.
fn put_starred(line: &mut Room, head: &[u8; 84]) {
    let starred = starring::star(receiver_of(head), head[9]);
    match starred {
        Ok(star) => written::put_star(line, star),
        Err(_) => filters::put_refusal(line, 4, 0),
    }
}

// A call of kind W: the head is a record of `steps`.
fn asked(head: &[u8; 84]) -> Result<Reason, Refusal> {
    help_desk::why(
        written::station_of(head),
        written::burst_of(head),
        written::offer_of(head),
    )
}

// The answer to a call of kind I or J.
fn put_stood(line: &mut Room, stood: Result<Station, BadIdentity>) {
    match stood {
        Ok(_) => line.put_all(b"ok"),
        Err(BadIdentity(index)) => filters::put_refusal(line, 8, index as u64),
    }
}

fn standing(head: &[u8; 84]) -> Result<Station, BadIdentity> {
    Station::standing_by(Identity(head[0], head[1], head[2], head[3]))
}

fn standing_both(head: &[u8; 84]) -> Result<Station, BadIdentity> {
    Station::standing_by_both(
        Identity(head[0], head[1], head[2], head[3]),
        Seven(
            head[4], head[5], head[6], head[7], head[8], head[9], head[10],
        ),
    )
}

// A call of kind C: the code is given to a fresh slave.
fn coded(head: &[u8; 84]) -> Result<Station, BadCode> {
    answerback::with_code(
        Station::fresh_slave(),
        Code {
            length: head[0],
            first: Words(head[1], head[2], head[3]),
            second: Words(head[4], head[5], head[6]),
            third: Words(head[7], head[8], head[9]),
            fourth: Words(head[10], head[11], head[12]),
            fifth: Words(head[13], head[14], head[15]),
            sixth: Words(head[16], head[17], head[18]),
            seventh: Words(head[19], head[20], 0),
        },
    )
}

fn put_coded(line: &mut Room, answer: Result<Station, BadCode>) {
    match answer {
        Ok(_) => line.put_all(b"ok"),
        Err(_) => filters::put_refusal(line, 9, 0),
    }
}

// A call of another kind.
fn put_other(line: &mut Room, kind: u8, head: &[u8; 84], list: &[u8]) {
    match kind {
        b'S' => put_slot(line, sending::slot(list, four_bytes(head))),
        b'M' => put_meaning(line, head[0]),
        b'I' => put_stood(line, standing(head)),
        b'J' => put_stood(line, standing_both(head)),
        b'C' => put_coded(line, coded(head)),
        b'W' => written::put_why(line, asked(head)),
        b'Y' => put_starred(line, head),
        _ => put_received(line, head),
    }
}

// The bytes between a record's kind and its list, if there is such a kind: of kind W a station written out with its burst and offer, of
// kind Y what R has.
fn before_list(kind: u8) -> Option<usize>
    ensures { IfSome result (λ n. n < 85) }
{
    match kind {
        b'E' | b'P' => Some(5),
        b'S' | b'V' => Some(6),
        b'M' => Some(1),
        b'R' | b'Y' => Some(10),
        b'I' => Some(4),
        b'J' => Some(11),
        b'C' => Some(21),
        b'W' => Some(84),
        _ => None,
    }
}

// The room that a record asks for, of kind V the master's.
fn size_in(kind: u8, head: &[u8; 84]) -> usize {
    match kind {
        b'E' | b'P' => two_bytes(head[1], head[2]),
        b'V' => two_bytes(head[0], head[1]),
        _ => 0,
    }
}

// The slave's room, of kind V.
fn slave_size_in(kind: u8, head: &[u8; 84]) -> usize {
    match kind {
        b'V' => two_bytes(head[2], head[3]),
        _ => 0,
    }
}

// The length of a record's list.
fn length_in(kind: u8, head: &[u8; 84]) -> usize
    ensures { result < 65536 }
{
    match kind {
        b'E' | b'P' => two_bytes(head[3], head[4]),
        b'S' | b'V' => two_bytes(head[4], head[5]),
        _ => 0,
    }
}

fn answer(stream: &mut Streams, kind: u8, head: &[u8; 84], list: &[u8]) {
    match kind {
        b'E' | b'P' => {
            let mut room = [170u8; MOST_ROOM];
            let size = size_in(kind, head).min(MOST_ROOM);
            call(
                stream,
                kind,
                fields::case_of(head[0]),
                list,
                &mut room[..size],
            );
        }
        b'V' => {
            let mut master = [170u8; MOST_ROOM];
            let mut slave = [170u8; MOST_ROOM];
            let master_size = size_in(kind, head).min(MOST_ROOM);
            let slave_size = slave_size_in(kind, head).min(MOST_ROOM);
            pass(
                stream,
                list,
                &mut master[..master_size],
                &mut slave[..slave_size],
            );
        }
        _ => {
            let mut said = [0u8; 64];
            let mut line = Room::new(&mut said);
            put_other(&mut line, kind, head, list);
            stream.put_line(line);
        }
    }
}

// Reads the list and answers; the length of the list.
fn listed(stream: &mut Streams, kind: u8, head: &[u8; 84]) -> Result<usize, BadRecord>
    ensures { IfOk result (λ n. n < 65536) }
{
    let length = length_in(kind, head);
    if MOST_ROOM < size_in(kind, head) || MOST_ROOM < slave_size_in(kind, head) {
        return Err(BadRecord::Room);
    }
    if MOST_LISTED < length {
        return Err(BadRecord::Length);
    }
    let mut list = [0u8; MOST_LISTED];
    let list = &mut list[..length];
    if stream.record(list) != length {
        return Err(BadRecord::CutShort);
    }
    answer(stream, kind, head, list);
    Ok(length)
}

// Reads a record and answers, unless the input is over; how many bytes it has.
fn record(stream: &mut Streams) -> Result<Option<u64>, BadRecord> {
    let mut kind = [0u8; 1];
    if stream.record(&mut kind) == 0 {
        return Ok(None);
    }
    let needed = before_list(kind[0]).ok_or(BadRecord::NoKind)?;
    let mut head = [0u8; 84];
    if stream.record(&mut head[..needed]) != needed {
        return Err(BadRecord::CutShort);
    }
    let length = listed(stream, kind[0], &head)?;
    Ok(Some((1 + needed + length) as u64))
}

// Answers all records; where there is none any more, the place of what is no record, if anything stands there.
fn records(stream: &mut Streams) -> Result<(), (u64, BadRecord)> {
    let mut place: u64 = 0;
    for _ in 0..u64::MAX {
        match record(stream) {
            Ok(Some(bytes)) => place = place.saturating_add(bytes),
            Ok(None) => break,
            Err(bad) => return Err((place, bad)),
        }
    }
    Ok(())
}

fn why(bad: BadRecord) -> &'static [u8] {
    match bad {
        BadRecord::NoKind => b": no such kind",
        BadRecord::CutShort => b": cut short",
        BadRecord::Room => b": a room over 8192",
        BadRecord::Length => b": a length over 8193",
    }
}

// Why there is no record at the place is told where reading and writing have not failed.
fn run(rt: HostRuntime) -> Result<(), ExitCode> {
    filters::no_words(rt, b"calls")?;
    let mut input = [0u8; 4096];
    let mut output = [0u8; 4096];
    let mut stream = Streams::new(rt, &mut input, &mut output);
    let answered = records(&mut stream);
    stream.finish(b"calls")?;
    answered.map_err(|(place, bad)| {
        filters::tell_value(rt, b"calls", b"bad record at ", place, why(bad))
    })
}

fn main(rt: HostRuntime) -> ExitCode {
    filters::status_after(run(rt))
}

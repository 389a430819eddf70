// What the programs share (docs/FORMATS.md): standard input and output by the block, numbers read and written, and what is told
// on standard error. No contract can speak of what a program reads or writes, so these functions are proved to be safe and to
// end, and the programs are run and compared; what is put into a room and how numbers are read is promised by `numbers`.
#![tactic(auto)]

ghost use Rattle.std.specs.Prelude.{◌≡◌, ◌≤◌, length, IfOk, IfErr};
ghost use Rattle.std.specs.Process.{exit_status};
ghost use Rattle.filters.specs.Counts.{IsPrefixLen};
ghost use Rattle.filters.specs.Statuses.{status_of, status_after};

use numbers::{NumberError, Reader, Room};
use std::env::{Env, FillError};
use std::io::{Read, Write};
use std::process::ExitCode;

// There may be more to read; the input is over; a read has failed; a write has failed. All but the first end the input.
#[derive(Clone, Copy, PartialEq, Eq)]
pub enum State {
    Going,
    Over,
    Unread,
    Unwritten,
}

// How a program's two streams stand: in the input room the next byte and the place past the last; the reader of the numbers that
// the input lists; the words that stand on the line that is written. What waits to be written is told by the output room. The
// system, which reads and writes, takes no bytes.
#[derive(Clone, Copy)]
pub struct Stream {
    pub rt: HostRuntime,
    pub state: State,
    pub next: usize,
    pub end: usize,
    pub reader: Reader,
    pub column: usize,
}

// A program's two streams, which go through two rooms that it lends. How they stand may be set by another crate too, as far as the two
// facts below allow: the next byte's place is not past the end, nor the end past the input room.
#[derive(Drop)]
pub struct Streams<'a> {
    input: &'a mut [u8],
    output: Room<'a>,
    pub stands: Stream,
    ghost next_within: { stands.next ≤ stands.end },
    ghost end_within: { stands.end ≤ length input.now },
}

// How many numbers stand in a room, and what came behind them that is no number, if that ended them.
#[derive(Clone, Copy, PartialEq, Eq)]
pub struct Listed {
    pub count: usize,
    pub fault: Option<NumberError>,
}

// Writes the bytes, unless a write has failed; answers how the stream then stands.
fn write(rt: HostRuntime, state: State, bytes: &[u8]) -> State {
    if state == State::Unwritten || rt.stdout().write_all(bytes).is_err() {
        return State::Unwritten;
    }
    state
}

impl<'a> Streams<'a> {
    ghost use Rattle.filters.specs.Standing.{standing};

    // An output room that is too short for a word is as one that cannot be written, so that no byte is lost untold.
    pub fn new(rt: HostRuntime, input: &'a mut [u8], output: &'a mut [u8]) -> Self {
        let output = Room::new(output);
        let state = if output.fits_word() {
            State::Going
        } else {
            State::Unwritten
        };
        Streams {
            input,
            output,
            stands: Stream {
                rt,
                state,
                next: 0,
                end: 0,
                reader: Reader::new(),
                column: 0,
            },
        }
    }

    // How they stand now: what is answered does not go on with them.
    pub fn stands(&self) -> Stream
        ensures { result ≡ standing self.now }
    {
        self.stands // a copy
    }

    // Writes what waits.
    fn flush(&mut self) {
        self.stands.state = write(self.stands.rt, self.stands.state, self.output.bytes());
        self.output.at = 0;
    }

    // Reads the next block, after what waits is written: an empty one where the input is over, a read fails, as it does in an
    // empty room, or a write has failed.
    fn refill(&mut self) {
        self.flush();
        self.stands.next = 0;
        self.stands.end = 0;
        if self.stands.state != State::Going {
            return;
        }
        if self.input.is_empty() {
            self.stands.state = State::Unread;
            return;
        }
        match self.stands.rt.stdin().read(self.input) {
            Ok(0) => self.stands.state = State::Over,
            Ok(count) => self.stands.end = count,
            Err(_) => self.stands.state = State::Unread,
        }
    }

    // The next byte of the input, if there is one more.
    fn byte(&mut self) -> Option<u8> {
        if self.stands.next == self.stands.end {
            self.refill();
        }
        if self.stands.next == self.stands.end {
            return None;
        }
        let byte = self.input[self.stands.next];
        self.stands.next += 1;
        Some(byte)
    }

    // Puts the bytes that come next into the room, until it is full or the input ends; answers how many.
    pub fn record(&mut self, room: &mut [u8]) -> usize
        ensures { IsPrefixLen result room.new }
    {
        for (count, place) in room.iter_mut().enumerate() {
            match self.byte() {
                Some(byte) => *place = byte,
                None => return count,
            }
        }
        room.len()
    }

    // Reads on in the block, up to what its bytes bring; nothing where they end before.
    fn scan(&mut self) -> Result<Option<u8>, NumberError> {
        let mut reader = self.stands.reader;
        for (count, &byte) in self.input[self.stands.next..self.stands.end]
            .iter()
            .enumerate()
        {
            let took = reader.take(byte);
            if took != Ok(None) {
                self.stands.reader = reader;
                self.stands.next += count + 1;
                return took;
            }
        }
        self.stands.reader = reader;
        self.stands.next = self.stands.end;
        Ok(None)
    }

    // The next number of the input, if there is one more. The end brings what was begun, and that once; a read that failed is not
    // the end, and what was begun before it no number.
    pub fn number(&mut self) -> Result<Option<u8>, NumberError> {
        for _ in 0..u64::MAX {
            let found = self.scan()?;
            if found.is_some() {
                return Ok(found);
            }
            self.refill();
            if self.stands.end == 0 {
                let reader = self.stands.reader;
                self.stands.reader = Reader::new();
                return Ok(if self.stands.state == State::Unread {
                    None
                } else {
                    reader.end()
                });
            }
        }
        Ok(None)
    }

    // Puts the numbers that come next into the room, until it is full, the input ends, or something is no number; answers how many,
    // whatever ended them.
    pub fn numbers(&mut self, room: &mut [u8]) -> Listed
        ensures { IsPrefixLen result.count room.new }
    {
        for (count, place) in room.iter_mut().enumerate() {
            match self.number() {
                Ok(Some(word)) => *place = word,
                Ok(None) => return Listed { count, fault: None },
                Err(error) => {
                    return Listed {
                        count,
                        fault: Some(error),
                    };
                }
            }
        }
        Listed {
            count: room.len(),
            fault: None,
        }
    }

    // Reads the list of a program that takes no words, as `numbers` does; what is no number and a failed read are told.
    pub fn list(&mut self, name: &[u8], room: &mut [u8]) -> Result<usize, ExitCode>
        ensures count { IfOk result (λ n. IsPrefixLen n room.new) }
        ensures told { IfErr result (λ status. exit_status status ≡ 1) }
    {
        let Listed { count, fault } = self.numbers(room);
        if let Some(error) = fault {
            return Err(tell_number(self.stands.rt, name, error));
        }
        self.check(name)?;
        Ok(count)
    }

    // Whether so many bytes more fit behind those that wait.
    fn has_room(&self, bytes: usize) -> bool {
        self.output.at <= self.output.room.len() && bytes <= self.output.room.len() - self.output.at
    }

    // The bytes; those that no room takes are written at once.
    pub fn put_all(&mut self, bytes: &[u8]) {
        if !self.has_room(bytes.len()) {
            self.flush();
        }
        if self.has_room(bytes.len()) {
            self.output.put_all(bytes);
        } else {
            self.stands.state = write(self.stands.rt, self.stands.state, bytes);
        }
    }

    // The first `count` of the bytes.
    pub fn put_first(&mut self, bytes: &[u8], count: usize) {
        self.put_all(&bytes[..count.min(bytes.len())]);
    }

    // What stands on the line, and its end.
    pub fn put_line(&mut self, mut line: Room) {
        line.put(10);
        self.put_all(line.bytes());
    }

    // A word as it is written, sixteen to a line.
    pub fn put_word(&mut self, word: u8) {
        if !self.output.fits_word() {
            self.flush();
        }
        self.stands.column = self.output.put_word(self.stands.column, word).column;
    }

    // Ends the line of words, if one has been begun.
    pub fn end_line(&mut self) {
        if self.stands.column != 0 {
            self.put_all(b"\n");
            self.stands.column = 0;
        }
    }

    // A read that has failed is told: what was read is then not the whole input.
    pub fn check(&self, name: &[u8]) -> Result<(), ExitCode>
        ensures { IfErr result (λ status. exit_status status ≡ 1) }
    {
        if self.stands.state == State::Unread {
            return Err(tell(self.stands.rt, name, b"cannot read standard input"));
        }
        Ok(())
    }

    // Writes what waits; a write or a read that has failed is told.
    pub fn finish(&mut self, name: &[u8]) -> Result<(), ExitCode>
        ensures { IfErr result (λ status. exit_status status ≡ 1) }
    {
        self.flush();
        if self.stands.state == State::Unwritten {
            return Err(tell(self.stands.rt, name, b"cannot write standard output"));
        }
        self.check(name)
    }
}

// A number's decimal digits.
pub fn put_decimal(line: &mut Room, number: u64) {
    let mut digits = itoa::Buffer::new();
    line.put_all(digits.format(number).as_bytes());
}

// The status of a program (docs/FORMATS.md) that has told nothing where all is well, and else has told what is not.
pub fn status(well: bool) -> ExitCode
    ensures { exit_status result ≡ status_of well }
{
    if well {
        ExitCode::SUCCESS
    } else {
        ExitCode::FAILURE
    }
}

// The status of a program that stops where it has told something: 0, or that of what it has told.
pub fn status_after(done: Result<(), ExitCode>) -> ExitCode
    ensures { exit_status result ≡ status_after done }
{
    match done {
        Ok(()) => status(true),
        Err(status) => status,
    }
}

// Writes the line to standard error at once, so that programs of a pipe do not write into each other's; where that fails, it is told
// nowhere. Answers the status that the program then ends with.
fn tell_line(rt: HostRuntime, mut line: Room) -> ExitCode
    ensures { exit_status result ≡ 1 }
{
    line.put(10);
    let _ = rt.stderr().write_all(line.bytes());
    status(false)
}

// Tells the words on a line of standard error, behind the program's name. The line has room for what is told here.
pub fn tell(rt: HostRuntime, name: &[u8], words: &[u8]) -> ExitCode
    ensures { exit_status result ≡ 1 }
{
    let mut room = [0u8; 160];
    let mut line = Room::new(&mut room);
    line.put_all(name);
    line.put_all(b": ");
    line.put_all(words);
    tell_line(rt, line)
}

// Tells the words with a value between them.
pub fn tell_value(rt: HostRuntime, name: &[u8], before: &[u8], value: u64, after: &[u8]) -> ExitCode
    ensures { exit_status result ≡ 1 }
{
    let mut room = [0u8; 160];
    let mut line = Room::new(&mut room);
    line.put_all(name);
    line.put_all(b": ");
    line.put_all(before);
    put_decimal(&mut line, value);
    line.put_all(after);
    tell_line(rt, line)
}

// The number and the value of a refusal.
pub fn put_refusal(line: &mut Room, number: u8, value: u64) {
    line.put_all(b"refused ");
    line.put_number(number);
    line.put(32);
    put_decimal(line, value);
}

// Tells a refusal: its number and value, and then in words, the value between `before` and `after`.
pub fn tell_refusal(
    rt: HostRuntime,
    name: &[u8],
    number: u8,
    value: u64,
    before: &[u8],
    after: &[u8],
) -> ExitCode
    ensures { exit_status result ≡ 1 }
{
    let mut room = [0u8; 160];
    let mut line = Room::new(&mut room);
    line.put_all(name);
    line.put_all(b": ");
    put_refusal(&mut line, number, value);
    line.put_all(b": ");
    line.put_all(before);
    put_decimal(&mut line, value);
    line.put_all(after);
    tell_line(rt, line)
}

// Tells what is no number.
pub fn tell_number(rt: HostRuntime, name: &[u8], error: NumberError) -> ExitCode
    ensures { exit_status result ≡ 1 }
{
    match error {
        NumberError::Over(place) => {
            tell_value(rt, name, b"not a number at ", place, b": over 255")
        }
        NumberError::NoDigit(place) => {
            tell_value(
                rt,
                name,
                b"not a number at ",
                place,
                b": a byte that is no digit",
            )
        }
    }
}

// Words handed to a program that takes none are told, and it does nothing.
pub fn no_words(rt: HostRuntime, name: &[u8]) -> Result<(), ExitCode>
    ensures { IfErr result (λ status. exit_status status ≡ 2) }
{
    // a first word that the room does not take is one too
    if let Err(FillError::NotPresent) = rt.arg(1, &mut [0u8; 1]) {
        return Ok(());
    }
    let mut room = [0u8; 160];
    let mut line = Room::new(&mut room);
    line.put_all(name);
    line.put_all(b": usage: ./telex ");
    line.put_all(name);
    line.put_all(b" < input");
    tell_line(rt, line);
    Err(ExitCode::from(2))
}

// The format of numbers (docs/FORMATS.md, "Numbers in, numbers out"): words read from the bytes of an input, and words put as
// bytes into lent room. Nothing here reads or writes.
#![tactic(auto)]

ghost use Rattle.std.specs.Prelude.{◌≡◌, [], ◌∷◌, ◌<◌, length, take};
ghost use Rattle.numbers.specs.Reading.{is_white, is_digit};
ghost use Rattle.numbers.specs.Steps.{fresh_reader, further, first_byte, end_brings, taking_digit, taking};
ghost use Rattle.numbers.specs.Writing.{PutsOn, decimal, hex_digit, hexadecimal, space_before, word_at, column_after, PutsWord, fits_word};

// A number that has begun: the place of its first byte, and its value so far.
#[derive(Clone, Copy, PartialEq, Eq)]
pub struct Begun {
    pub start: u64,
    pub value: u8,
}

// A reader of decimal numbers, 0 to 255, between white space: the place of the next byte, and the number that has begun, if one has.
#[derive(Clone, Copy, PartialEq, Eq)]
pub struct Reader {
    pub place: u64,
    pub begun: Option<Begun>,
}

// What stands at a place and is no such number: its value is over 255, or it has a byte that is no digit.
#[derive(Clone, Copy, PartialEq, Eq)]
pub enum NumberError {
    Over(u64),
    NoDigit(u64),
}

#[tactic(auto, unfolding(crate::specs::Reading::is_white))]
fn is_white(byte: u8) -> bool
    ensures { result ≡ is_white byte }
{
    matches!(byte, 32 | 9 | 13 | 10)
}

#[tactic(auto, unfolding(crate::specs::Reading::is_digit))]
fn is_digit(byte: u8) -> bool
    ensures { result ≡ is_digit byte }
{
    matches!(byte, 48..=57)
}

// One further, up to a place that no input reaches.
fn further(place: u64) -> u64
    ensures { result ≡ further place }
{
    place.saturating_add(1)
}

impl Reader {
    pub fn new() -> Self
        ensures { result ≡ fresh_reader }
    {
        Reader {
            place: 0,
            begun: None,
        }
    }

    // The first byte of the number to which the next byte belongs.
    fn first(&self) -> u64
        ensures { result ≡ first_byte self.now }
    {
        self.begun.map_or(self.place, |number| number.start)
    }

    #[tactic(auto, unfolding(crate::specs::Steps::taking_digit))]
    fn take_digit(&mut self, digit: u8) -> Result<Option<u8>, NumberError>
        requires { digit < 10 }
        ensures reader { self.new ≡ (taking_digit self.old digit).reader }
        ensures event { result ≡ (taking_digit self.old digit).event }
    {
        match &mut self.begun {
            Some(number) => {
                let value = number.value as u16 * 10 + digit as u16;
                if 255 < value {
                    return Err(NumberError::Over(number.start));
                }
                number.value = value as u8;
            }
            None => {
                self.begun = Some(Begun {
                    start: self.place,
                    value: digit,
                });
            }
        }
        self.place = further(self.place);
        Ok(None)
    }

    // Takes a byte: the number that it ends, if it ends one. At an error the reader stays as it was.
    #[tactic(auto, using(crate::proofs::DigitLaws::digit_bounds), unfolding(crate::specs::Steps::taking))]
    pub fn take(&mut self, byte: u8) -> Result<Option<u8>, NumberError>
        ensures reader { self.new ≡ (taking self.old byte).reader }
        ensures event { result ≡ (taking self.old byte).event }
    {
        if is_digit(byte) {
            return self.take_digit(byte - 48);
        }
        if !is_white(byte) {
            return Err(NumberError::NoDigit(self.first()));
        }
        let ended = self.end();
        self.place = further(self.place);
        self.begun = None;
        Ok(ended)
    }

    // What the end of the input brings: the number that it ends, if one has begun.
    pub fn end(&self) -> Option<u8>
        ensures { result ≡ end_brings self.now }
    {
        self.begun.map(|number| number.value)
    }
}

// The bytes that a word takes at most as it is written: a space, three digits, a line feed.
const LONGEST: usize = 5;

// The column of a line's last word, counted from 0: a line has sixteen.
const LAST_COLUMN: usize = 15;

// The place past what was put, and the words that stand on the line.
#[derive(Clone, Copy, PartialEq, Eq)]
pub struct Line {
    pub at: usize,
    pub column: usize,
}

// Room that is lent, and the place of the next byte that is put into it. A full room takes no more: what finds none is dropped.
#[derive(Drop)]
pub struct Room<'a> {
    pub room: &'a mut [u8],
    pub at: usize,
}

impl<'a> Room<'a> {
    pub fn new(room: &'a mut [u8]) -> Self
        ensures same_reference { result.room.ghost_name ≡ room.entry.ghost_name }
        ensures same_bytes { result.room.now ≡ room.old }
        ensures at_start { result.at ≡ 0 }
    {
        Room { room, at: 0 }
    }

    // The bytes that were put, as far as they found room.
    pub fn bytes(&self) -> &[u8]
        ensures { result.now ≡ take self.now.at self.now.room.now }
    {
        &self.room[..self.at.min(self.room.len())]
    }

    // Puts a byte.
    pub fn put(&mut self, byte: u8)
        ensures { PutsOn self.old (byte ∷ []) self.new }
    {
        if self.at < self.room.len() {
            self.room[self.at] = byte;
            self.at += 1;
        }
    }

    // Puts the bytes.
    pub fn put_all(&mut self, bytes: &[u8])
        ensures { PutsOn self.old bytes.now self.new }
    {
        for &byte in bytes {
            self.put(byte);
        }
    }

    // The decimal digits of the number, without leading zeros.
    #[tactic(auto, using(crate::proofs::PutLaws::puts_on_then), unfolding(crate::specs::Writing::decimal))]
    pub fn put_number(&mut self, number: u8)
        ensures { PutsOn self.old (decimal number) self.new }
    {
        if number < 10 {
            self.put(48 + number);
        } else if number < 100 {
            self.put(48 + number / 10);
            self.put(48 + number % 10);
        } else {
            self.put(48 + number / 100);
            self.put(48 + number / 10 % 10);
            self.put(48 + number % 10);
        }
    }

    // The space between words: the first of a line has none before it.
    #[tactic(auto, using(crate::proofs::PutLaws::puts_on_none))]
    fn put_space(&mut self, column: usize)
        ensures { PutsOn self.old (space_before column) self.new }
    {
        if column != 0 {
            self.put(32);
        }
    }

    // Whether any word fits, whatever its column.
    #[tactic(auto, unfolding(crate::specs::Writing::fits_word))]
    pub fn fits_word(&self) -> bool
        ensures { result ≡ fits_word (length self.now.room.now) self.now.at }
    {
        self.at <= self.room.len() && LONGEST <= self.room.len() - self.at
    }

    // A word as it is written, sixteen to a line, where `column` words stand on the line already.
    pub fn put_word(&mut self, column: usize, word: u8) -> Line
        ensures puts { PutsOn self.old (word_at column word) self.new }
        ensures column { result.column ≡ column_after column }
        ensures word { PutsWord self.old.room.now self.old.at column word result self.new.room.now }
    {
        self.put_space(column);
        self.put_number(word);
        if LAST_COLUMN <= column {
            self.put(10);
            return Line {
                at: self.at,
                column: 0,
            };
        }
        Line {
            at: self.at,
            column: column + 1,
        }
    }

    // Two capital hexadecimal digits.
    #[tactic(auto, using(crate::proofs::PutLaws::puts_on_then), unfolding(crate::specs::Writing::hexadecimal))]
    pub fn put_hex(&mut self, byte: u8)
        ensures { PutsOn self.old (hexadecimal byte) self.new }
    {
        self.put(hex_digit(byte / 16));
        self.put(hex_digit(byte % 16));
    }
}

// A capital hexadecimal digit.
fn hex_digit(value: u8) -> u8
    requires { value < 16 }
    ensures { result ≡ hex_digit value }
{
    if value < 10 { 48 + value } else { 55 + value }
}

// A record of a passage (02, T-07): its entries, read one by one from lent bytes; and what running two stations over it answers. What the
// entries mean is `specs/Lib.antt`.
#![tactic(auto)]

ghost use Rattle.std.specs.Prelude.{◌≡◌, length};
ghost use Rattle.entries.specs.Entries.{other_role, same_role, burst_of, text_to, entry_of, written, told_as, read_of, ReadsOn};

use mode_a::{Offer, Role, Words};

// An entry: whose burst, and its damage byte; or to whom text, over or end is offered.
#[derive(Clone, Copy)]
pub enum Entry {
    Burst(Role, u8),
    Text(Role, Words),
    Over(Role),
    End(Role),
}

// Why no entry stands at a place where a byte is left: the place.
#[derive(Clone, Copy, PartialEq, Eq)]
pub enum ReadError {
    // 10: a kind that is none of the eight.
    UnknownKind(usize),
    // 11: a body cut short.
    CutShort(usize),
}

// Whose burst is on the way, and the offer that stands for each station; Nothing where none does.
#[derive(Clone, Copy)]
pub struct Standing {
    pub turn: Role,
    pub master: Offer,
    pub slave: Offer,
}

// A record and a place in it (01, The shape of each place: "The reader walks the lent record and never copies it").  R-165
#[derive(Clone, Copy)]
pub struct Reader<'a> {
    pub bytes: &'a [u8],
    pub at: usize,
}

// How many bytes the master printed, and the slave.
#[derive(Clone, Copy, PartialEq, Eq)]
pub struct Printed {
    pub master: usize,
    pub slave: usize,
}

// Why `passing::passage` prints nothing. Each but the last has the place of the entry's kind byte.
#[derive(Clone, Copy, PartialEq, Eq)]
pub enum PassError {
    // 10: an unknown kind.
    UnknownKind(usize),
    // 11: a body cut short.
    CutShort(usize),
    // 12: a burst out of turn, or bits 3 to 7 set.
    BadBurst(usize),
    // 13: an offer before that station's last was taken.
    StillOffered(usize),
    // 3: a word of a text offer neither traffic nor β.
    BadWord(usize),
    // 2: the room is too short, the master's or else the slave's; the room needed.
    NoRoom(usize),
}

impl From<ReadError> for PassError {
    ghost from_gives = { λ error e. e ≡ told_as error };

    fn from(error: ReadError) -> PassError {
        match error {
            ReadError::UnknownKind(at) => PassError::UnknownKind(at),
            ReadError::CutShort(at) => PassError::CutShort(at),
        }
    }
}

// The other station of the two.
pub fn other(role: Role) -> Role
    ensures { result ≡ other_role role }
{
    match role {
        Role::Master => Role::Slave,
        Role::Slave => Role::Master,
    }
}

pub fn same(one: Role, role: Role) -> bool
    ensures { result ≡ same_role one role }
{
    match (one, role) {
        (Role::Master, Role::Master) | (Role::Slave, Role::Slave) => true,
        _ => false,
    }
}

// A burst of this station, whose kind stands at `at` and has these bytes behind it: its body is one byte.
fn burst(role: Role, behind: &[u8], at: usize) -> Result<Entry, ReadError>
    ensures { result ≡ read_of (burst_of role behind.now) at }
{
    match behind {
        [damage, ..] => Ok(Entry::Burst(role, *damage)),
        [] => Err(ReadError::CutShort(at)),
    }
}

// A text offer to this station, alike: its body is three words.
fn text(role: Role, behind: &[u8], at: usize) -> Result<Entry, ReadError>
    ensures { result ≡ read_of (text_to role behind.now) at }
{
    match behind {
        [first, second, third, ..] => Ok(Entry::Text(role, Words(*first, *second, *third))),
        _ => Err(ReadError::CutShort(at)),
    }
}

// The entry of this kind, which stands at `at`: its body, whose length the kind fixes, is what the bytes behind the kind begin with.
#[tactic(auto, unfolding(crate::specs::Entries::entry_of))]
fn begun(kind: u8, behind: &[u8], at: usize) -> Result<Entry, ReadError>
    ensures { result ≡ read_of (entry_of kind behind.now) at }
{
    match kind {
        1 => burst(Role::Master, behind, at),
        2 => burst(Role::Slave, behind, at),
        3 => text(Role::Master, behind, at),
        4 => text(Role::Slave, behind, at),
        5 => Ok(Entry::Over(Role::Master)),
        6 => Ok(Entry::Over(Role::Slave)),
        7 => Ok(Entry::End(Role::Master)),
        8 => Ok(Entry::End(Role::Slave)),
        _ => Err(ReadError::UnknownKind(at)),
    }
}

// How many bytes an entry takes, its kind among them.
fn size(entry: Entry) -> usize
    ensures { result ≡ length (written entry) }
{
    match entry {
        Entry::Burst(..) => 2,
        Entry::Text(..) => 4,
        Entry::Over(_) | Entry::End(_) => 1,
    }
}

impl<'a> Reader<'a> {
    // The entry where the reader stands, which is then passed; or nothing, where no byte is left. Where none can be read the reader stays.
    pub fn next_entry(&mut self) -> Result<Option<Entry>, ReadError>
        ensures { ReadsOn self.old.bytes.now self.old.at result self.new.bytes.now self.new.at }
    {
        if self.bytes.len() <= self.at {
            return Ok(None);
        }
        let entry = begun(self.bytes[self.at], &self.bytes[self.at + 1..], self.at)?;
        self.at += size(entry);
        Ok(Some(entry))
    }
}

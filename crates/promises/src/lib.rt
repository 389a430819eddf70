// The public calls and what each promises, on one page: for each call of docs/PROMISES.md, in that order, a function under the same
// promise that only makes the call. It is the one page of code that an approver reads, and it holds each promise in place: where the
// `ensures` of a call is weakened, the function here is no longer proved and the gate fails. No code of the product calls these.
//
// What the promises say stands in the `specs/` of `signals`, `text`, `mode_a`, `mode_b`, `entries` and `reasons`; that each leaves one
// answer, in their `proofs/Unique.antt`. `text.now` and `room.old` are what the caller lends as the call begins, `room.new` the room as it
// ends. No function has a `requires`: a call takes all inputs.
#![tactic(auto)]

ghost use Rattle.std.specs.Prelude.{◌≡◌};
ghost use Rattle.signals.specs.Units.{intact_of};
ghost use Rattle.signals.specs.Meaning.{meaning_of};
ghost use Rattle.text.specs.Encoding.{Encodes};
ghost use Rattle.text.specs.Printing.{Prints};
ghost use Rattle.mode_a.specs.Station.{fresh_master, fresh_slave, first_burst, StandsBy, StandsByBoth};
ghost use Rattle.mode_a.specs.Step.{Steps, Codes};
ghost use Rattle.mode_b.specs.Sender.{Slots};
ghost use Rattle.mode_b.specs.Receiver.{fresh_receiver, Receives};
ghost use Rattle.entries.specs.Passing.{Passes};
ghost use Rattle.reasons.specs.Reasons.{Explains};
ghost use Rattle.reasons.specs.Stars.{Stars};

use entries::PassError;
use identity::Seven;
use mode_a::{
    BadCode, BadIdentity, Code, Identity, Offer, Refusal, Refused, Reply, Station, Words,
};
use mode_b::{BadReceiver, Heard, Receiver, SlotError};
use reasons::{Reason, Star, StarError};
use signals::Case;
use text::{EncodeError, PrintError, Written};

// 01, The code.
pub fn meaning(word: u8) -> u8
    ensures { result ≡ meaning_of word }
{
    signals::meaning(word)
}

pub fn intact(word: u8) -> bool
    ensures { result ≡ intact_of word }
{
    signals::intact(word)
}

// 01, Text; 02, T-01: `encode` takes small letters as the capitals.
pub fn encode(text: &[u8], case: Case, room: &mut [u8]) -> Result<Written, EncodeError>
    ensures { Encodes text.now case room.old result room.new }
{
    encoding::encode(text, case, room)
}

pub fn print(words: &[u8], case: Case, room: &mut [u8]) -> Result<Written, PrintError>
    ensures { Prints words.now case room.old result room.new }
{
    printing::print(words, case, room)
}

// 01, The station; 02, T-02, T-05 and T-06: `step` hears and places calls, tells and learns identities, and answers who are you.
pub fn step(s: Station, burst: Words, offer: Offer) -> Result<Reply, Refused>
    ensures { Steps s burst offer result }
{
    station::step(s, burst, offer)
}

pub fn fresh_master() -> Station
    ensures { result ≡ fresh_master }
{
    Station::fresh_master()
}

pub fn fresh_slave() -> Station
    ensures { result ≡ fresh_slave }
{
    Station::fresh_slave()
}

pub fn standing_by(identity: Identity) -> Result<Station, BadIdentity>
    ensures { StandsBy identity result }
{
    Station::standing_by(identity)
}

pub fn standing_by_both(four: Identity, seven: Seven) -> Result<Station, BadIdentity>
    ensures { StandsByBoth four seven result }
{
    Station::standing_by_both(four, seven)
}

pub fn with_code(s: Station, code: Code) -> Result<Station, BadCode>
    ensures { Codes s code result }
{
    answerback::with_code(s, code)
}

pub fn first_burst() -> Words
    ensures { result ≡ first_burst }
{
    Station::first_burst()
}

// 01, Mode B.
pub fn slot(text: &[u8], number: usize) -> Result<u8, SlotError>
    ensures { Slots text.now number result }
{
    sending::slot(text, number)
}

pub fn receive(receiver: Receiver, word: u8) -> Result<Heard, BadReceiver>
    ensures { Receives receiver word result }
{
    receiving::receive(receiver, word)
}

pub fn fresh_receiver() -> Receiver
    ensures { result ≡ fresh_receiver }
{
    Receiver::fresh()
}

// 02, T-07.
pub fn passage(
    bytes: &[u8],
    master: &mut [u8],
    slave: &mut [u8],
) -> Result<entries::Printed, PassError>
    ensures { Passes bytes.now master.old slave.old result master.new slave.new }
{
    passing::passage(bytes, master, slave)
}

// 02, T-08.
pub fn why(s: Station, burst: Words, offer: Offer) -> Result<Reason, Refusal>
    ensures { Explains s burst offer result }
{
    help_desk::why(s, burst, offer)
}

pub fn star(receiver: Receiver, word: u8) -> Result<Option<Star>, StarError>
    ensures { Stars receiver word result }
{
    starring::star(receiver, word)
}

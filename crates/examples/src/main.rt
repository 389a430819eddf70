// Runs 01's worked examples that are not proved, a byte that has no signal, two calls of two stations, an answer-back, and the limits of printing and of mode B, and writes what each gives.
#![tactic(auto)]

use filters::Streams;
use identity::Seven;
use mode_a::{
    BadCode, BadIdentity, Code, Identity, Number, Offer, Owed, Peer, Place, Refused, Reply, Role,
    Station, Words,
};
use mode_b::{BadReceiver, Heard, Hearing, Phasing, Receiver, SlotError};
use numbers::Room;
use signals::Case;
use std::process::ExitCode;
use text::{EncodeError, PrintError, Written};

fn put_written(line: &mut Room, count: usize) {
    line.put_all(b"written ");
    filters::put_decimal(line, count as u64);
}

fn put_encoded(line: &mut Room, answer: Result<Written, EncodeError>) {
    match answer {
        Ok(Written { count, ends: _ }) => put_written(line, count),
        Err(EncodeError::TooLong) => filters::put_refusal(line, 5, 4096),
        Err(EncodeError::NoSignal(index)) => filters::put_refusal(line, 1, index as u64),
        Err(EncodeError::NoRoom(needed)) => filters::put_refusal(line, 2, needed as u64),
    }
}

fn put_printed(line: &mut Room, answer: Result<Written, PrintError>) {
    match answer {
        Ok(Written { count, ends: _ }) => put_written(line, count),
        Err(PrintError::TooLong) => filters::put_refusal(line, 7, 8192),
        Err(PrintError::BadWord(index)) => filters::put_refusal(line, 3, index as u64),
        Err(PrintError::NoRoom(needed)) => filters::put_refusal(line, 2, needed as u64),
    }
}

// A line: what it is about, and what that gives.
fn encode_line(line: &mut Room, about: &[u8], answer: Result<Written, EncodeError>) {
    line.put_all(about);
    put_encoded(line, answer);
    line.put(10);
}

fn print_line(line: &mut Room, about: &[u8], answer: Result<Written, PrintError>) {
    line.put_all(about);
    put_printed(line, answer);
    line.put(10);
}

fn put_word(line: &mut Room, word: u8) {
    line.put_all(b", the word ");
    filters::put_decimal(line, word as u64);
}

// 01's example "a", as 02, T-01 has it: what it gives, and the word.
fn small_letter(line: &mut Room) {
    let mut room = [0u8; 2];
    let answer = encoding::encode(b"a", Case::Letters, &mut room);
    line.put_all(b"encode \"a\": ");
    put_encoded(line, answer);
    put_word(line, room[0]);
    line.put(10);
}

fn text(line: &mut Room) {
    let mut room = [0u8; 2];
    let brace = encoding::encode(b"{", Case::Letters, &mut room);
    let short = encoding::encode(b"A1", Case::Letters, &mut room);
    encode_line(line, b"encode \"{\": ", brace);
    encode_line(line, b"encode \"A1\", room 2: ", short);
}

fn encode_limits(line: &mut Room) {
    let mut room = [0u8; 8192];
    let most = encoding::encode(&[b'A'; 4096], Case::Letters, &mut room);
    let over = encoding::encode(&[b'A'; 4097], Case::Letters, &mut room);
    encode_line(line, b"encode 4096 characters: ", most);
    encode_line(line, b"encode 4097 characters: ", over);
}

fn print_limits(line: &mut Room) {
    let mut room = [0u8; 8192];
    let most = printing::print(&[71u8; 8192], Case::Letters, &mut room);
    let over = printing::print(&[71u8; 8193], Case::Letters, &mut room);
    print_line(line, b"print 8192 signals: ", most);
    print_line(line, b"print 8193 signals: ", over);
}

fn put_place(line: &mut Room, place: Place) {
    match place {
        Place::Sending(_) => line.put_all(b"Sending"),
        Place::Turning(_) => line.put_all(b"Turning"),
        Place::Opening => line.put_all(b"Opening"),
        Place::Receiving(_) => line.put_all(b"Receiving"),
        Place::Asking => line.put_all(b"Asking"),
        Place::StandBy(_) => line.put_all(b"Stand-by"),
        Place::Lost => line.put_all(b"Lost"),
        Place::Calling(_) => line.put_all(b"Calling"),
        Place::Calling3(_) => line.put_all(b"Calling"),
        Place::Identifying(_) => line.put_all(b"Identifying"),
        Place::Answering(_) => line.put_all(b"Answering"),
        _ => line.put_all(b"elsewhere"),
    }
}

// Whether a step printed, and the place it leads to.
fn put_reply(line: &mut Room, reply: Reply) {
    if reply.printed.0 == 0 {
        line.put_all(b"nothing printed, ");
    } else {
        line.put_all(b"accepted and printed, ");
    }
    put_place(line, reply.station.place);
}

fn put_stepped(line: &mut Room, stepped: Result<Reply, Refused>) {
    match stepped {
        Ok(reply) => put_reply(line, reply),
        Err(refused) => {
            let (number, value) = refused.why.told();
            filters::put_refusal(line, number, value as u64);
        }
    }
}

// A slave that has repeated so often.
fn repeated(count: u8) -> Station {
    Station {
        count,
        ..Station::fresh_slave()
    }
}

fn step_line(line: &mut Room, about: &[u8], burst: Words) {
    let stepped = station::step(repeated(31), burst, Offer::Nothing);
    line.put_all(about);
    put_stepped(line, stepped);
    line.put(10);
}

fn count_31(line: &mut Room) {
    step_line(line, b"count 31 and a good block: ", Words(116, 86, 51));
    step_line(line, b"count 31 and a bad one: ", Words(116, 0, 51));
}

// The identities D O C K and V X Q Z: the station that has the first calls the second.
const DOCK: Identity = Identity(83, 113, 29, 30);

const VXQZ: Identity = Identity(60, 58, 46, 99);

fn put_stood(line: &mut Room, stood: Result<Station, BadIdentity>) {
    match stood {
        Ok(s) => put_place(line, s.place),
        Err(BadIdentity(index)) => filters::put_refusal(line, 8, index as u64),
    }
}

fn stood_line(line: &mut Room, about: &[u8], identity: Identity) {
    line.put_all(about);
    put_stood(line, Station::standing_by(identity));
    line.put(10);
}

fn identities(line: &mut Room) {
    stood_line(line, b"standing by as V X Q Z: ", VXQZ);
    stood_line(line, b"standing by as V X L Z: ", Identity(60, 58, 101, 99));
}

fn both_line(line: &mut Room, about: &[u8], seven: Seven) {
    line.put_all(about);
    put_stood(line, Station::standing_by_both(VXQZ, seven));
    line.put(10);
}

fn both_identities(line: &mut Room) {
    both_line(line, b"and as P E A R D B Y: ", PEARDBY);
    both_line(
        line,
        b"and as P E A R D B J: ",
        Seven(45, 86, 71, 85, 83, 114, 23),
    );
}

fn call_line(line: &mut Room, about: &[u8], count: u8, identity: Identity) {
    let stepped = station::step(repeated(count), mode_a::SILENCE, Offer::Call(identity));
    line.put_all(about);
    put_stepped(line, stepped);
    line.put(10);
}

// The own seven signals of this station are zeros: none of the called one is bad, and the first of its own is.
fn call_3_line(line: &mut Room) {
    let stepped = station::step(repeated(32), mode_a::SILENCE, Offer::Call3(PEARDBY));
    line.put_all(b"count 32 and a call to P E A R D B Y: ");
    put_stepped(line, stepped);
    line.put(10);
}

// 8 is judged before 4, and at every place.
fn refused_calls(line: &mut Room) {
    call_line(line, b"count 32 and a call to V X Q Z: ", 32, VXQZ);
    call_line(
        line,
        b"count 32 and a call to V X Q G: ",
        32,
        Identity(60, 58, 46, 53),
    );
}

// Two stations, what the one called is offered until that is taken, and the burst that it has sent.
#[derive(Clone, Copy)]
struct Pair {
    caller: Station,
    called: Station,
    waits: Offer,
    burst: Words,
}

fn put_burst(line: &mut Room, burst: Words) {
    line.put_number(burst.0);
    line.put(32);
    line.put_number(burst.1);
    line.put(32);
    line.put_number(burst.2);
}

fn put_whether(line: &mut Room, printed: Words) {
    if printed.0 != 0 {
        line.put_all(b", accepted and printed ");
        put_burst(line, printed);
    }
    line.put_all(b", ");
}

// What a step sends, what it printed, with 0 behind the last signal, and the place it leads to.
fn put_answer(line: &mut Room, reply: Reply) {
    put_burst(line, reply.sent);
    put_whether(line, reply.printed);
    put_place(line, reply.station.place);
}

// Whether the burst is damaged, and whether text is offered.
fn put_done(line: &mut Room, offer: Offer, damaged: bool) {
    match offer {
        _ if damaged => line.put_all(b", the burst damaged: "),
        Offer::Text(_) => line.put_all(b", text offered: "),
        _ => line.put_all(b": "),
    }
}

// A line: what both stations answer.
fn put_both(line: &mut Room, one: Reply, two: Reply) {
    put_answer(line, one);
    line.put_all(b"; ");
    put_answer(line, two);
    line.put(10);
}

fn heard(burst: Words, damaged: bool) -> Words {
    if damaged {
        Words(0, burst.1, burst.2)
    } else {
        burst
    }
}

impl Pair {
    // The caller hears what is on the way and is offered something, and the other hears its burst; what it takes is not offered again.
    fn exchange(&mut self, line: &mut Room, offer: Offer, damaged: bool) {
        let one = fields::reply_of(station::step(self.caller, self.burst, offer));
        let two = fields::reply_of(station::step(
            self.called,
            heard(one.sent, damaged),
            self.waits,
        ));
        self.caller = one.station;
        self.called = two.station;
        self.burst = two.sent;
        if two.taken {
            self.waits = Offer::Nothing;
        }
        put_done(line, offer, damaged);
        put_both(line, one, two);
    }
}

// An example: the number past that of its last exchange, the exchanges at which the caller's burst is damaged (bit n for number n), and
// the one at which this text is offered to the caller.
#[derive(Clone, Copy)]
struct Told {
    end: u8,
    damaged: u16,
    later: u8,
    text: Words,
}

// The exchanges of an example, in order. At the first the caller is offered `call`.
fn exchanges(line: &mut Room, pair: &mut Pair, about: &[u8], call: Offer, told: Told) {
    let mut damaged = told.damaged;
    for number in 1..told.end {
        damaged /= 2;
        let offer = if number == 1 {
            call
        } else if number == told.later {
            Offer::Text(told.text)
        } else {
            Offer::Nothing
        };
        line.put_all(about);
        line.put_number(number);
        pair.exchange(line, offer, damaged % 2 == 1);
    }
}

const TEA: Words = Words(116, 86, 71);

fn standing(four: Identity) -> Station {
    match Station::standing_by(four) {
        Ok(s) => s,
        // not reached: every signal of the two is of table 3a
        Err(_) => Station::fresh_slave(),
    }
}

// A call of two stations at Stand-by, its second burst damaged, as far as the confirmation of the first block.
fn worked_call(line: &mut Room) {
    let mut pair = Pair {
        caller: standing(DOCK),
        called: standing(VXQZ),
        waits: Offer::Nothing,
        burst: mode_a::SILENCE,
    };
    let told = Told {
        end: 8,
        damaged: 0b100,
        later: 6,
        text: TEA,
    };
    exchanges(line, &mut pair, b"call, exchange ", Offer::Call(VXQZ), told);
}

// The identities of 001's example (2.5) and of its figure 3.
const PEARDBY: Seven = Seven(45, 86, 71, 85, 83, 114, 43);

const KQVZRSE: Seven = Seven(30, 46, 60, 99, 85, 75, 86);

fn standing_both(four: Identity, seven: Seven) -> Station {
    match Station::standing_by_both(four, seven) {
        Ok(s) => s,
        // not reached: every signal of these is of table 3a
        Err(_) => Station::fresh_slave(),
    }
}

fn put_seven(line: &mut Room, seven: Seven) {
    put_burst(line, Words(seven.0, seven.1, seven.2));
    line.put(32);
    put_burst(line, Words(seven.3, seven.4, seven.5));
    line.put(32);
    line.put_number(seven.6);
}

fn put_known(line: &mut Room, s: Station) {
    match s.other {
        Peer::Known(seven) => put_seven(line, seven),
        _ => line.put_all(b"nobody told"),
    }
}

// A call of seven signals, its first burst and that of the second identification block damaged, as far as the first block, and who is then
// at the other end of each.
fn worked_identification(line: &mut Room) {
    let mut pair = Pair {
        caller: standing_both(DOCK, KQVZRSE),
        called: standing_both(VXQZ, PEARDBY),
        waits: Offer::Nothing,
        burst: mode_a::SILENCE,
    };
    let told = Told {
        end: 11,
        damaged: 0b100_0010,
        later: 10,
        text: TEA,
    };
    exchanges(
        line,
        &mut pair,
        b"call of seven, exchange ",
        Offer::Call3(PEARDBY),
        told,
    );
    line.put_all(b"at the other end: ");
    put_known(line, pair.caller);
    line.put_all(b"; ");
    put_known(line, pair.called);
    line.put(10);
}

// The answer-back code of a coast station: figures 4 5 6, a space, letters and DOCK. Its D stands in letters, and asks nothing.
const DOCK_CODE: Code = Code {
    length: 10,
    first: Words(54, 85, 116),
    second: Words(43, 92, 90),
    third: Words(83, 113, 29),
    fourth: Words(30, 0, 0),
    fifth: mode_a::SILENCE,
    sixth: mode_a::SILENCE,
    seventh: mode_a::SILENCE,
};

fn coast_station() -> Station {
    match answerback::with_code(Station::fresh_slave(), DOCK_CODE) {
        Ok(s) => s,
        // not reached: the code passes
        Err(BadCode(s)) => s,
    }
}

// A ship asks a coast station who it is (02, T-06; 001, 3.7.13.2), by figures D β. CS2, by which it asks for the third block of the code,
// is damaged once; the last block of the answer turns the direction back. Then it asks by D + ?, in figures still: an over stands in the
// same block, so that the direction is kept, and TEA, which was offered at the coast station all along, goes out behind the answer.
fn worked_answer(line: &mut Room) {
    let mut pair = Pair {
        caller: Station::fresh_master(),
        called: coast_station(),
        waits: Offer::Text(TEA),
        burst: Station::first_burst(),
    };
    let told = Told {
        end: 23,
        damaged: 0b10_0000,
        later: 13,
        text: Words(83, 99, 114),
    };
    exchanges(
        line,
        &mut pair,
        b"answer-back, exchange ",
        Offer::Text(Words(54, 83, 51)),
        told,
    );
}

fn put_slots(line: &mut Room, slots: usize) {
    filters::put_decimal(line, (slots / 2) as u64);
    line.put_all(b" positions, ");
    filters::put_decimal(line, slots as u64);
    line.put_all(b" slots");
}

fn put_sent(line: &mut Room, slot: Result<u8, SlotError>) {
    match slot {
        Ok(word) => line.put_number(word),
        Err(SlotError::TooLong) => filters::put_refusal(line, 7, 8192),
        Err(SlotError::BadWord(index)) => filters::put_refusal(line, 3, index as u64),
        Err(SlotError::PastLast(slots)) => put_slots(line, slots),
    }
}

// How long a sending is: no sending reaches slot 65,535, so it is refused with the number of slots.
fn send_line(line: &mut Room, about: &[u8], text: &[u8]) {
    line.put_all(about);
    put_sent(line, sending::slot(text, 65535));
    line.put(10);
}

fn lengths(line: &mut Room) {
    send_line(line, b"send no signals: ", b"");
    send_line(line, b"send 94 signals: ", &[71u8; 94]);
    send_line(line, b"send 95 signals: ", &[71u8; 95])
}

fn longer(line: &mut Room) {
    send_line(line, b"send 190 signals: ", &[71u8; 190]);
    send_line(line, b"send 191 signals: ", &[71u8; 191])
}

fn send_limits(line: &mut Room) {
    send_line(line, b"send 8192 signals: ", &[71u8; 8192]);
    send_line(line, b"send 8193 signals: ", &[71u8; 8193])
}

fn put_received(line: &mut Room, received: Result<Heard, BadReceiver>) {
    match received {
        Ok(_) => line.put_all(b"heard"),
        Err(_) => filters::put_refusal(line, 4, 0),
    }
}

// A receiver that no run of steps reaches.
fn search_run_4(line: &mut Room) {
    let receiver = Receiver {
        hearing: Hearing::Searching(4, Phasing::One),
    };
    line.put_all(b"receiver with a search run of 4: ");
    put_received(line, receiving::receive(receiver, signals::RQ));
    line.put(10);
}

fn run(rt: HostRuntime) -> Result<(), ExitCode> {
    filters::no_words(rt, b"examples")?;
    // all lines, which come to less
    let mut room = [0u8; 5120];
    let mut line = Room::new(&mut room);
    small_letter(&mut line);
    text(&mut line);
    encode_limits(&mut line);
    print_limits(&mut line);
    count_31(&mut line);
    identities(&mut line);
    both_identities(&mut line);
    refused_calls(&mut line);
    call_3_line(&mut line);
    worked_call(&mut line);
    worked_identification(&mut line);
    worked_answer(&mut line);
    lengths(&mut line);
    longer(&mut line);
    send_limits(&mut line);
    search_run_4(&mut line);
    let mut output = [0u8; 5120];
    let mut stream = Streams::new(rt, &mut [], &mut output);
    stream.put_all(line.bytes());
    stream.finish(b"examples")
}

fn main(rt: HostRuntime) -> ExitCode {
    filters::status_after(run(rt))
}

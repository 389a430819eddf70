// Runs one call many times on pseudo-random input and writes a check-sum of its answers (docs/COST.md, docs/FORMATS.md).
#![tactic(auto)]

ghost use Rattle.std.specs.Prelude.{◌<◌, length};
ghost use Rattle.filters.specs.Counts.{IsPrefixLen};

use entries::{PassError, Printed};
use filters::Streams;
use identity::Seven;
use mode_a::{
    BadIdentity, Identity, Offer, Owed, Peer, Place, Refusal, Refused, Reply, Role, Station, Words,
};
use mode_b::{BadReceiver, Heard, Hearing, Phasing, Receiver, SlotError};
use numbers::Room;
use reasons::{Reason, Star, StarError};
use signals::Case;
use std::process::ExitCode;
use text::{EncodeError, PrintError, Written};

// Every character that has a signal, small letters apart, and every traffic signal, both ascending.
const ALPHABET: [u8; 52] = [
    5, 7, 10, 13, 32, 39, 40, 41, 43, 44, 45, 46, 47, 48, 49, 50, 51, 52, 53, 54, 55, 56, 57, 58,
    61, 63, 65, 66, 67, 68, 69, 70, 71, 72, 73, 74, 75, 76, 77, 78, 79, 80, 81, 82, 83, 84, 85, 86,
    87, 88, 89, 90,
];

const TRAFFIC: [u8; 32] = [
    23, 27, 29, 30, 39, 43, 45, 46, 53, 54, 57, 58, 60, 71, 75, 77, 78, 83, 85, 86, 89, 90, 92, 99,
    101, 105, 106, 108, 113, 114, 116, 120,
];

// The pseudo-random numbers: the next of them, and what it draws below a limit.
fn next(g: u64) -> u64 {
    ((g % 4294967296) * 1664525 + 1013904223) % 4294967296
}

fn drawn(g: u64, limit: u64) -> usize {
    if limit == 0 {
        0
    } else {
        ((g / 65536) % limit) as usize
    }
}

// The check-sum with one value more.
fn mix(sum: u64, value: u64) -> u64 {
    ((sum % 4294967296) * 31 + value % 4294967296) % 4294967296
}

fn mix_byte(sum: u64, byte: u8) -> u64 {
    mix(sum, byte as u64)
}

// The numbers of the input.
#[derive(Clone, Copy)]
struct Asked {
    call: u64,
    times: u64,
    length: usize,
}

// The number that the bytes begin with, the largest where it is over that, the byte behind it, and what stands behind that byte.
fn number_in(bytes: &[u8]) -> Option<(u64, u8, &[u8])> {
    let digits = bytes.iter().position(|byte| !byte.is_ascii_digit())?;
    if digits == 0 {
        return None;
    }
    let mut value: u64 = 0;
    for &byte in &bytes[..digits] {
        value = value.saturating_mul(10).saturating_add((byte % 16) as u64);
    }
    Some((value, bytes[digits], &bytes[digits + 1..]))
}

fn is_white(byte: u8) -> bool {
    matches!(byte, 9 | 10 | 13 | 32)
}

// What a line asks for that ends in white space: three numbers, one space between.
fn asked_in(line: &[u8]) -> Option<Asked> {
    let (call, behind_call, rest) = number_in(line)?;
    let (times, behind_times, rest) = number_in(rest)?;
    let (length, behind_length, rest) = number_in(rest)?;
    if behind_call != 32 || behind_times != 32 || !is_white(behind_length) {
        return None;
    }
    if !rest.iter().all(|byte| is_white(*byte)) || call == 0 || 9 < call || 8192 < length {
        return None;
    }
    Some(Asked {
        call,
        times,
        length: length as usize,
    })
}

// What a room is filled with: any bytes, characters, traffic signals with an error mark once in a while, traffic signals alone,
// the plan of 4,096 steps, or the record of a passage. Each makes a byte of the number drawn and of its place.
fn any_byte(g: u64, _: usize) -> u8 {
    (drawn(g, 256) % 256) as u8
}

fn character(g: u64, _: usize) -> u8 {
    ALPHABET[drawn(g, 52) % 52]
}

fn traffic(g: u64, _: usize) -> u8 {
    TRAFFIC[drawn(g, 32) % 32]
}

// The plan has five bytes a step: which word of the burst on the way is damaged (none where it is 3 or more), a kind of offer, and
// three words for a text.
fn planned(g: u64, j: usize) -> u8 {
    match j % 5 {
        0 => (drawn(g, 16) % 16) as u8,
        1 => (drawn(g, 8) % 8) as u8,
        _ => TRAFFIC[drawn(g, 32) % 32],
    }
}

fn word_drawn(g: u64, _: usize) -> u8 {
    TRAFFIC.get(drawn(g, 33)).copied().unwrap_or(255)
}

// The record has halves of 61 bytes, the master's and the slave's in turn: fifteen groups of four bytes, and then the station that
// has the turn offers over. Every fifth group is a text of that station, the others are a burst of the slave and one of the master.
fn of_turn(j: usize, master: u8, slave: u8) -> u8 {
    if (j / 61) % 2 == 0 { master } else { slave }
}

// No text has D or + in it, so that it asks for nothing.
fn text_byte(g: u64, j: usize, place: usize) -> u8 {
    match place % 4 {
        0 => of_turn(j, 3, 4),
        1 => signals::LETTERS,
        _ => TRAFFIC[drawn(g, 16) % 32],
    }
}

// Damaged are some of the bursts behind the second and the third text: of four exchanges the three that are left see to it that the
// text is taken. Behind the first text none is, since the turn takes all four.
fn damage_drawn(g: u64, group: usize) -> u8 {
    if group % 5 == 1 && group != 1 && drawn(g, 16) < 8 {
        (drawn(g, 16) % 8) as u8
    } else {
        0
    }
}

fn burst_byte(g: u64, place: usize) -> u8 {
    match place % 4 {
        0 => 2,
        2 => 1,
        _ => damage_drawn(g, place / 4),
    }
}

// A record that has no fault.
fn recorded(g: u64, j: usize) -> u8 {
    let place = j % 61;
    if place == 60 {
        return of_turn(j, 5, 6);
    }
    if (place / 4) % 5 == 0 {
        return text_byte(g, j, place);
    }
    burst_byte(g, place)
}

// Fills the room, and answers the last number drawn.
fn fill<F: Fn(u64, usize) -> u8>(room: &mut [u8], made: F) -> u64
    requires { F.IsAlwaysCallable made }
{
    let mut g: u64 = 625;
    for (j, byte) in room.iter_mut().enumerate() {
        g = next(g);
        *byte = made(g, j);
    }
    g
}

// The first bytes, as many as there are of so many.
fn first(bytes: &[u8], most: usize) -> &[u8]
    ensures { IsPrefixLen (length result.now) bytes.now }
{
    &bytes[..most.min(bytes.len())]
}

// --- meaning ---

fn meaning_often(times: u64, input: &[u8; 4096]) -> u64 {
    let mut sum: u64 = 0;
    for i in 0..times {
        sum = mix_byte(sum, signals::meaning(input[(i % 4096) as usize]));
    }
    sum
}

fn run_meaning(times: u64) -> u64 {
    let mut input = [0u8; 4096];
    fill(&mut input, any_byte);
    meaning_often(times, &input)
}

// --- encode and print ---

fn case_no(case: Case) -> u64 {
    match case {
        Case::Letters => 0,
        Case::Figures => 1,
    }
}

fn case_of(i: u64) -> Case {
    if i % 2 == 0 {
        Case::Letters
    } else {
        Case::Figures
    }
}

// The last byte of what was written, if any was.
fn mix_last(sum: u64, count: usize, room: &[u8]) -> u64 {
    if 0 < count && count <= room.len() {
        mix_byte(sum, room[count - 1])
    } else {
        sum
    }
}

// What was written: how much, the case at the end, the last byte of it.
fn mix_written(sum: u64, count: usize, ends: Case, room: &[u8]) -> u64 {
    mix_last(mix(mix(sum, count as u64), case_no(ends)), count, room)
}

fn mix_refusal(sum: u64, number: u64, value: u64) -> u64 {
    mix(mix(sum, number), value)
}

fn mix_encoded(sum: u64, answer: Result<Written, EncodeError>, room: &[u8]) -> u64 {
    match answer {
        Ok(Written { count, ends }) => mix_written(sum, count, ends, room),
        Err(EncodeError::TooLong) => mix_refusal(sum, 5, 4096),
        Err(EncodeError::NoSignal(index)) => mix_refusal(sum, 1, index as u64),
        Err(EncodeError::NoRoom(needed)) => mix_refusal(sum, 2, needed as u64),
    }
}

fn mix_printed(sum: u64, answer: Result<Written, PrintError>, room: &[u8]) -> u64 {
    match answer {
        Ok(Written { count, ends }) => mix_written(sum, count, ends, room),
        Err(PrintError::TooLong) => mix_refusal(sum, 7, 8192),
        Err(PrintError::BadWord(index)) => mix_refusal(sum, 3, index as u64),
        Err(PrintError::NoRoom(needed)) => mix_refusal(sum, 2, needed as u64),
    }
}

fn encode_often(times: u64, text: &[u8], room: &mut [u8], from: u64) -> u64 {
    let mut sum = from;
    for i in 0..times {
        let answer = encoding::encode(text, case_of(i), room);
        sum = mix_encoded(sum, answer, room);
    }
    sum
}

fn encode_refused() -> u64 {
    let mut room = [0u8; 2];
    let too_long = encoding::encode(&[b'A'; 4097], Case::Letters, &mut room);
    let no_signal = encoding::encode(&[0u8; 1], Case::Letters, &mut room);
    let no_room = encoding::encode(b"A1A", Case::Letters, &mut room);
    let one = mix_encoded(0, too_long, &room);
    let two = mix_encoded(one, no_signal, &room);
    mix_encoded(two, no_room, &room)
}

fn run_encode(times: u64, length: usize) -> u64 {
    let mut text = [0u8; 8192];
    let mut room = [0u8; 8192];
    fill(&mut text, character);
    encode_often(times, first(&text, length), &mut room, encode_refused())
}

fn print_often(times: u64, words: &[u8], room: &mut [u8], from: u64) -> u64 {
    let mut sum = from;
    for i in 0..times {
        let answer = printing::print(words, case_of(i), room);
        sum = mix_printed(sum, answer, room);
    }
    sum
}

fn print_refused() -> u64 {
    let mut room = [0u8; 1];
    let too_long = printing::print(&[71u8; 8193], Case::Letters, &mut room);
    let bad_word = printing::print(&[0u8; 1], Case::Letters, &mut room);
    let no_room = printing::print(&[71u8; 2], Case::Letters, &mut room);
    let one = mix_printed(0, too_long, &room);
    let two = mix_printed(one, bad_word, &room);
    mix_printed(two, no_room, &room)
}

fn run_print(times: u64, length: usize) -> u64 {
    let mut words = [0u8; 8192];
    let mut room = [0u8; 8192];
    fill(&mut words, word_drawn);
    print_often(times, first(&words, length), &mut room, print_refused())
}

// --- step ---

fn damaged(burst: Words, damage: u8) -> Words {
    match damage {
        0 => Words(0, burst.1, burst.2),
        1 => Words(burst.0, 0, burst.2),
        2 => Words(burst.0, burst.1, 0),
        _ => burst,
    }
}

fn packed(words: Words) -> u64
    ensures { result < 16777216 }
{
    words.0 as u64 + 256 * (words.1 as u64) + 65536 * (words.2 as u64)
}

fn mix_reply(sum: u64, reply: Reply) -> u64 {
    let no = 2 * table::row_no(reply.station.place) as u64 + u64::from(reply.taken);
    let told = mix(sum, packed(reply.sent));
    mix(told, packed(reply.printed) + 16777216 * no)
}

fn mix_told(sum: u64, refusal: Refusal) -> u64 {
    let (number, value) = refusal.told();
    mix_refusal(sum, number as u64, value as u64)
}

fn mix_refused(sum: u64, stepped: Result<Reply, Refused>) -> u64 {
    match stepped {
        Ok(_) => sum,
        Err(refused) => mix_told(sum, refused.why),
    }
}

// Two stations, the burst on the way, and the check-sum.
#[derive(Clone, Copy)]
struct Pair {
    hearer: Station,
    sender: Station,
    burst: Words,
    sum: u64,
}

fn fresh_pair(sum: u64) -> Pair {
    Pair {
        hearer: Station::fresh_master(),
        sender: Station::fresh_slave(),
        burst: Words(signals::CS1, 0, 0),
        sum,
    }
}

impl Pair {
    // The hearer answers, and the two change places.
    fn exchange(&mut self, damage: u8, offer: Offer) {
        let reply = fields::reply_of(station::step(
            self.hearer,
            damaged(self.burst, damage),
            offer,
        ));
        self.hearer = self.sender;
        self.sender = reply.station;
        self.burst = reply.sent;
        self.sum = mix_reply(self.sum, reply);
    }

    // Asks for the reason of the answer that comes next.
    fn explain(&mut self, damage: u8, offer: Offer) {
        let why = help_desk::why(self.hearer, damaged(self.burst, damage), offer);
        self.sum = mix_why(self.sum, why);
    }
}

// A step of the plan: its place, which word of the burst on the way is damaged, a kind of offer, and the words of a text.
#[derive(Clone, Copy)]
struct Step {
    j: usize,
    damage: u8,
    kind: u8,
    words: Words,
}

// What is offered at each step, by its place in the plan.
fn offer_of(step: Step) -> Offer {
    match step.kind {
        _ if 240 <= step.j % 256 => Offer::End,
        0 => Offer::Over,
        1..=5 => Offer::Text(step.words),
        _ => Offer::Nothing,
    }
}

// The two are made anew at each of 256 steps.
fn renew(pair: &mut Pair, step: Step) {
    if step.j % 256 == 0 {
        *pair = fresh_pair(pair.sum);
    }
}

// The steps of the plan, over and over.
fn steps_often<F: Fn(&mut Pair, Step)>(times: u64, first: Pair, turn: F) -> u64
    requires { F.IsAlwaysCallable turn }
{
    let mut steps = [0u8; 20480];
    fill(&mut steps, planned);
    let mut pair = first;
    for i in 0..times {
        let j = (i % 4096) as usize;
        let at = 5 * j;
        let step = Step {
            j,
            damage: steps[at],
            kind: steps[at + 1],
            words: Words(steps[at + 2], steps[at + 3], steps[at + 4]),
        };
        turn(&mut pair, step);
    }
    pair.sum
}

// The count is over 31.
fn unsound() -> Station {
    Station {
        count: 32,
        ..Station::fresh_master()
    }
}

fn run_step(times: u64) -> u64 {
    let bad_station = station::step(unsound(), mode_a::SILENCE, Offer::Nothing);
    let bad_offer = station::step(
        Station::fresh_master(),
        mode_a::SILENCE,
        Offer::Text(Words(0, 71, 71)),
    );
    let refused = mix_refused(mix_refused(0, bad_station), bad_offer);
    steps_often(times, fresh_pair(refused), |pair, step| {
        renew(pair, step);
        pair.exchange(step.damage, offer_of(step));
    })
}

// --- why ---

// The place of a reason in `Reason`, from 0, and 256 times the index and 65536 times the word beside it.
fn reason_no(reason: Reason) -> u64 {
    match reason {
        Reason::Silent => 0,
        Reason::TimeOut => 1,
        Reason::RunOut => 2,
        Reason::Called => 3,
        Reason::CallOffered => 4,
        Reason::Own => 5,
        Reason::Other => 6,
        Reason::Either => 7,
        Reason::Cs1 => 8,
        Reason::Cs3 => 9,
        Reason::Cs4 => 10,
        Reason::Cs5 => 11,
        Reason::Rq => 12,
        Reason::Turn => 13,
        Reason::Alphas => 14,
        Reason::RightSum => 15,
        Reason::WrongSum => 16,
        Reason::Told => 17,
        Reason::ToldAgain => 18,
        Reason::Bad(index, word) => 19 + 256 * ((index % 256) as u64) + 65536 * (word as u64),
        Reason::Repeat(index) => 20 + 256 * ((index % 256) as u64),
        Reason::Unexpected => 21,
        Reason::OverHeard => 22,
        Reason::WhoAreYou => 23,
        Reason::OverOffered => 24,
        Reason::Accepted => 25,
    }
}

fn mix_why(sum: u64, answer: Result<Reason, Refusal>) -> u64 {
    match answer {
        Ok(reason) => mix(sum, reason_no(reason)),
        Err(refusal) => mix_told(sum, refusal),
    }
}

fn mix_starred(sum: u64, answer: Result<Option<Star>, StarError>) -> u64 {
    match answer {
        Ok(_) => sum,
        Err(_) => mix_refusal(sum, 4, 0),
    }
}

// Of `star`, which has no run of its own, the refusal alone.
fn why_refused() -> u64 {
    let bad_station = help_desk::why(unsound(), mode_a::SILENCE, Offer::Nothing);
    let bad_offer = help_desk::why(
        Station::fresh_master(),
        mode_a::SILENCE,
        Offer::Text(Words(0, 71, 71)),
    );
    let bad_receiver = starring::star(unsound_receiver(), 0);
    mix_starred(mix_why(mix_why(0, bad_station), bad_offer), bad_receiver)
}

// The draws and the steps of `run_step`: what it takes more than that is what the question takes.
fn run_why(times: u64) -> u64 {
    steps_often(times, fresh_pair(why_refused()), |pair, step| {
        renew(pair, step);
        let offer = offer_of(step);
        pair.explain(step.damage, offer);
        pair.exchange(step.damage, offer);
    })
}

// --- step, at Stand-by and Calling ---

const DOCK: Identity = Identity(83, 113, 29, 30);

const VXQZ: Identity = Identity(60, 58, 46, 99);

fn standing(identity: Identity) -> Station {
    match Station::standing_by(identity) {
        Ok(s) => s,
        // not reached: every signal of the two is of table 3a
        Err(_) => Station::fresh_slave(),
    }
}

fn standing_pair(sum: u64) -> Pair {
    Pair {
        hearer: standing(DOCK),
        sender: standing(VXQZ),
        burst: mode_a::SILENCE,
        sum,
    }
}

fn mix_stood(sum: u64, stood: Result<Station, BadIdentity>) -> u64 {
    match stood {
        Ok(_) => sum,
        Err(BadIdentity(index)) => mix_refusal(sum, 8, index as u64),
    }
}

// The two stand anew at each of eight steps, and there the call is offered; then it goes on as in a circuit.
fn run_call(times: u64) -> u64 {
    let bad_identity = Station::standing_by(Identity(60, 101, 46, 99));
    let bad_call = station::step(
        Station::fresh_master(),
        mode_a::SILENCE,
        Offer::Call(Identity(60, 58, 101, 99)),
    );
    let refused = mix_refused(mix_stood(0, bad_identity), bad_call);
    steps_often(times, standing_pair(refused), |pair, step| {
        if step.j % 8 == 0 {
            *pair = standing_pair(pair.sum);
            pair.exchange(step.damage, Offer::Call(VXQZ));
        } else {
            pair.exchange(step.damage, offer_of(step));
        }
    })
}

// --- slot ---

fn mix_slot(sum: u64, slot: Result<u8, SlotError>) -> u64 {
    match slot {
        Ok(word) => mix(sum, word as u64),
        Err(SlotError::TooLong) => mix_refusal(sum, 7, 8192),
        Err(SlotError::BadWord(index)) => mix_refusal(sum, 3, index as u64),
        Err(SlotError::PastLast(slots)) => mix_refusal(sum, 6, slots as u64),
    }
}

// How many slots the text has: beside the refusal of a slot that none has.
fn slots_of(text: &[u8]) -> usize {
    match sending::slot(text, 4294967295) {
        Err(SlotError::PastLast(slots)) => slots,
        Ok(_) | Err(SlotError::TooLong | SlotError::BadWord(_)) => 0,
    }
}

fn slot_refused(text: &[u8]) -> u64 {
    let one = mix_slot(0, sending::slot(&[71u8; 8193], 0));
    let two = mix_slot(one, sending::slot(&[0u8; 1], 0));
    mix_slot(two, sending::slot(text, 4294967295))
}

fn slot_often(times: u64, text: &[u8]) -> u64 {
    let slots = slots_of(text);
    let mut sum = slot_refused(text);
    let mut number = 0;
    for _ in 0..times {
        sum = mix_slot(sum, sending::slot(text, number));
        number = number.saturating_add(1);
        if slots <= number {
            number = 0;
        }
    }
    sum
}

fn run_slot(times: u64, length: usize) -> u64 {
    let mut text = [0u8; 8192];
    fill(&mut text, traffic);
    slot_often(times, first(&text, length))
}

// --- receive ---

// A slot of the text as it is heard: each sixteenth or so is damaged.
fn heard(g: u64, text: &[u8], number: usize) -> u8 {
    if drawn(g, 16) == 0 {
        0
    } else {
        sending::slot(text, number).unwrap_or(0)
    }
}

fn broadcast(stream: &mut [u8], text: &[u8], from: u64) {
    let mut g = from;
    for (k, word) in stream.iter_mut().enumerate() {
        g = next(g);
        *word = heard(g, text, k);
    }
}

fn receiver_in(received: Result<Heard, BadReceiver>) -> Receiver {
    match received {
        Ok(heard) => heard.receiver,
        Err(BadReceiver(receiver)) => receiver,
    }
}

fn printed_in(received: Result<Heard, BadReceiver>) -> u8 {
    match received {
        Ok(heard) => heard.printed.unwrap_or(0),
        Err(BadReceiver(_)) => 0,
    }
}

fn mix_unsound(sum: u64, received: Result<Heard, BadReceiver>) -> u64 {
    match received {
        Ok(_) => sum,
        Err(BadReceiver(_)) => mix_refusal(sum, 4, 0),
    }
}

// Its search run is over 3.
fn unsound_receiver() -> Receiver {
    Receiver {
        hearing: Hearing::Searching(4, Phasing::One),
    }
}

fn receive_refused() -> u64 {
    mix_unsound(0, receiving::receive(unsound_receiver(), 0))
}

fn receive_often(times: u64, stream: &[u8]) -> u64 {
    let mut sum = receive_refused();
    let mut receiver = Receiver::fresh();
    let mut at = 0;
    for _ in 0..times {
        if at < stream.len() {
            let received = receiving::receive(receiver, stream[at]);
            sum = mix_byte(sum, printed_in(received));
            receiver = receiver_in(received);
            at += 1;
        }
        if at == stream.len() {
            at = 0;
        }
    }
    sum
}

fn run_receive(times: u64) -> u64 {
    let mut text = [0u8; 40];
    let g = fill(&mut text, traffic);
    let mut stream = [0u8; 256];
    broadcast(&mut stream, &text, g);
    receive_often(times, first(&stream, slots_of(&text)))
}

// --- passage ---

// What a station printed: how much, the last byte of it.
fn mix_by(sum: u64, count: usize, room: &[u8]) -> u64 {
    mix_last(mix(sum, count as u64), count, room)
}

fn mix_passed(
    sum: u64,
    answer: Result<Printed, PassError>,
    by_master: &[u8],
    by_slave: &[u8],
) -> u64 {
    match answer {
        Ok(Printed { master, slave }) => mix_by(mix_by(sum, master, by_master), slave, by_slave),
        Err(PassError::UnknownKind(place)) => mix_refusal(sum, 10, place as u64),
        Err(PassError::CutShort(place)) => mix_refusal(sum, 11, place as u64),
        Err(PassError::BadBurst(place)) => mix_refusal(sum, 12, place as u64),
        Err(PassError::StillOffered(place)) => mix_refusal(sum, 13, place as u64),
        Err(PassError::BadWord(place)) => mix_refusal(sum, 3, place as u64),
        Err(PassError::NoRoom(needed)) => mix_refusal(sum, 2, needed as u64),
    }
}

fn passage_often(
    times: u64,
    bytes: &[u8],
    by_master: &mut [u8],
    by_slave: &mut [u8],
    from: u64,
) -> u64 {
    let mut sum = from;
    for _ in 0..times {
        let answer = passing::passage(bytes, by_master, by_slave);
        sum = mix_passed(sum, answer, by_master, by_slave);
    }
    sum
}

// Three signals to the slave, which they print.
const ONE_BLOCK: [u8; 8] = [3, 71, 71, 71, 2, 0, 1, 0];

const OUT_OF_TURN: [u8; 2] = [1, 0];

const NO_TEXT: [u8; 4] = [3, 0, 0, 0];

fn passage_refused() -> u64 {
    let mut by_master = [0u8; 2];
    let mut by_slave = [0u8; 2];
    let unknown = passing::passage(&[0u8; 1], &mut by_master, &mut by_slave);
    let cut_short = passing::passage(&[2u8; 1], &mut by_master, &mut by_slave);
    let bad_burst = passing::passage(&OUT_OF_TURN, &mut by_master, &mut by_slave);
    let still_offered = passing::passage(&[5u8; 2], &mut by_master, &mut by_slave);
    let bad_word = passing::passage(&NO_TEXT, &mut by_master, &mut by_slave);
    let no_room = passing::passage(&ONE_BLOCK, &mut by_master, &mut by_slave);
    let one = mix_passed(0, unknown, &by_master, &by_slave);
    let two = mix_passed(one, cut_short, &by_master, &by_slave);
    let three = mix_passed(two, bad_burst, &by_master, &by_slave);
    let four = mix_passed(three, still_offered, &by_master, &by_slave);
    let five = mix_passed(four, bad_word, &by_master, &by_slave);
    mix_passed(five, no_room, &by_master, &by_slave)
}

fn run_passage(times: u64, length: usize) -> u64 {
    let mut bytes = [0u8; 8192];
    let mut by_master = [0u8; 8192];
    let mut by_slave = [0u8; 8192];
    fill(&mut bytes, recorded);
    passage_often(
        times,
        first(&bytes, length),
        &mut by_master,
        &mut by_slave,
        passage_refused(),
    )
}

// The call's name, and the check-sum of its answers.
fn answered(asked: Asked) -> (&'static [u8], u64) {
    match asked.call {
        1 => (b"meaning ", run_meaning(asked.times)),
        2 => (b"encode ", run_encode(asked.times, asked.length)),
        3 => (b"print ", run_print(asked.times, asked.length)),
        4 => (b"step ", run_step(asked.times)),
        5 => (b"slot ", run_slot(asked.times, asked.length)),
        6 => (b"receive ", run_receive(asked.times)),
        7 => (b"call ", run_call(asked.times)),
        8 => (b"passage ", run_passage(asked.times, asked.length)),
        _ => (b"why ", run_why(asked.times)),
    }
}

// A function of its own, since bench/stack stops a run where it begins.
#[inline(never)]
fn answer(stream: &mut Streams, name: &[u8], sum: u64) -> Result<(), ExitCode> {
    let mut room = [0u8; 32];
    let mut line = Room::new(&mut room);
    line.put_all(name);
    filters::put_decimal(&mut line, sum);
    stream.put_line(line);
    stream.finish(b"bench")
}

fn run(rt: HostRuntime) -> Result<(), ExitCode> {
    filters::no_words(rt, b"bench")?;
    let mut input = [0u8; 64];
    let mut output = [0u8; 64];
    let mut stream = Streams::new(rt, &mut input, &mut output);
    // white space behind what is read; an input that fills the line is too long
    let mut bytes = [32u8; 64];
    let count = stream.record(&mut bytes);
    stream.check(b"bench")?;
    match asked_in(&bytes) {
        Some(asked) if count < 64 => {
            let (name, sum) = answered(asked);
            answer(&mut stream, name, sum)
        }
        _ => Err(filters::tell(
            rt,
            b"bench",
            b"no such call: the input is CALL N L, CALL 1 to 9, L at most 8192",
        )),
    }
}

fn main(rt: HostRuntime) -> ExitCode {
    filters::status_after(run(rt))
}

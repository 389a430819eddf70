// One step a record of a station that is written out, so that stations can be tried that no run reaches (docs/FORMATS.md).
#![tactic(auto)]

use filters::Streams;
use identity::Seven;
use mode_a::{
    Identity, Mark, Number, Owed, Peer, Place, Refused, Reply, Role, Stage, Station, Succession,
    Words,
};
use numbers::Room;
use std::process::ExitCode;

// What a line shows of a place after its name, and of a call at its end: 0 for a field that the place does not carry.
#[derive(Clone, Copy)]
struct Fields {
    number: u8,
    held: Words,
    total: u8,
}

const BARE: Fields = Fields {
    number: 0,
    held: mode_a::SILENCE,
    total: 0,
};

#[derive(Clone, Copy)]
struct CallFields {
    cycles: u8,
    last: u8,
    to: Identity,
}

const NO_CALL: CallFields = CallFields {
    cycles: 0,
    last: 0,
    to: Identity(0, 0, 0, 0),
};

// And of identification.
#[derive(Clone, Copy)]
struct TellFields {
    heard3: u8,
    stage: u8,
    wrong: u8,
    last: u8,
    signals: Seven,
}

const NOT_TOLD: TellFields = TellFields {
    heard3: 0,
    stage: 0,
    wrong: 0,
    last: 0,
    signals: Seven(0, 0, 0, 0, 0, 0, 0),
};

fn put_words(line: &mut Room, words: Words) {
    fields::put_number(line, words.0);
    fields::put_number(line, words.1);
    fields::put_number(line, words.2);
}

fn put_identity(line: &mut Room, identity: Identity) {
    fields::put_number(line, identity.0);
    fields::put_number(line, identity.1);
    fields::put_number(line, identity.2);
    fields::put_number(line, identity.3);
}

fn put_seven(line: &mut Room, seven: Seven) {
    put_words(line, Words(seven.0, seven.1, seven.2));
    put_words(line, Words(seven.3, seven.4, seven.5));
    fields::put_number(line, seven.6);
}

// KEPT: these numbers are the line's (docs/FORMATS.md), and no order of the types: a `From` would have to stand in `mode_a`, which writes
// no lines.
fn number_in(number: Number) -> u8 {
    match number {
        Number::One => 1,
        Number::Two => 2,
    }
}

fn mark_in(mark: Mark) -> u8 {
    match mark {
        Mark::None => 0,
        Mark::One => 1,
        Mark::Two => 2,
    }
}

fn succession_in(heard: Succession) -> u8 {
    match heard {
        Succession::None => 0,
        Succession::One => 1,
        Succession::OneTwo => 2,
        Succession::Two => 3,
        Succession::TwoThree => 4,
    }
}

fn stage_in(stage: Stage) -> u8 {
    match stage {
        Stage::One => 1,
        Stage::Two => 2,
        Stage::Three => 3,
        Stage::Four => 4,
    }
}

fn fields_of(place: Place) -> Fields {
    match place {
        Place::Sending(held) => Fields {
            number: number_in(held.number),
            held: held.block,
            ..BARE
        },
        Place::Ending(ended) => Fields {
            number: number_in(ended.number),
            total: ended.total,
            ..BARE
        },
        Place::Turning(number) | Place::Receiving(number) => Fields {
            number: number_in(number),
            ..BARE
        },
        Place::Opening
        | Place::Asking
        | Place::StandBy(_)
        | Place::Lost
        | Place::Calling(_)
        | Place::Calling3(_)
        | Place::Identifying(_)
        | Place::Answering(_) => BARE,
    }
}

fn call_fields_of(place: Place) -> CallFields {
    match place {
        Place::StandBy(waiting) => CallFields {
            cycles: waiting.wait,
            last: mark_in(waiting.heard),
            ..NO_CALL
        },
        Place::Calling(called) => CallFields {
            cycles: called.sent,
            last: mark_in(called.last),
            to: called.to,
        },
        Place::Calling3(called) => CallFields {
            cycles: called.sent,
            ..NO_CALL
        },
        Place::Sending(_)
        | Place::Turning(_)
        | Place::Opening
        | Place::Ending(_)
        | Place::Receiving(_)
        | Place::Asking
        | Place::Lost
        | Place::Identifying(_)
        | Place::Answering(_) => NO_CALL,
    }
}

fn tell_fields_of(place: Place) -> TellFields {
    match place {
        Place::StandBy(waiting) => TellFields {
            heard3: succession_in(waiting.heard3),
            ..NOT_TOLD
        },
        Place::Calling3(called) => TellFields {
            signals: called.to,
            ..NOT_TOLD
        },
        Place::Identifying(identified) => TellFields {
            stage: stage_in(identified.stage),
            wrong: identified.wrong,
            last: identified.last,
            signals: identified.to,
            ..NOT_TOLD
        },
        Place::Answering(gathered) => TellFields {
            stage: stage_in(gathered.stage),
            signals: gathered.got,
            ..NOT_TOLD
        },
        Place::Sending(_)
        | Place::Turning(_)
        | Place::Opening
        | Place::Ending(_)
        | Place::Receiving(_)
        | Place::Asking
        | Place::Lost
        | Place::Calling(_) => NOT_TOLD,
    }
}

fn put_station(line: &mut Room, s: Station) {
    let shown = fields_of(s.place);
    fields::put_place(line, s.place);
    fields::put_number(line, shown.number);
    put_words(line, shown.held);
    fields::put_number(line, shown.total);
    fields::put_number(line, s.count);
    fields::put_case(line, s.case);
    fields::put_flag(line, s.plus);
}

fn put_role(line: &mut Room, role: Role) {
    match role {
        Role::Master => line.put_all(b" master"),
        Role::Slave => line.put_all(b" slave"),
    }
}

// The first four signals of who is at the other end, and the last three, which stand at the end of the line.
fn first_four(seven: Seven) -> Identity {
    Identity(seven.0, seven.1, seven.2, seven.3)
}

fn put_other(line: &mut Room, other: Peer) {
    match other {
        Peer::Nobody => line.put_all(b" nobody 0 0 0 0"),
        Peer::Four(identity) => {
            line.put_all(b" four");
            put_identity(line, identity);
        }
        Peer::Known(seven) => {
            line.put_all(b" seven");
            put_identity(line, first_four(seven));
        }
        Peer::Barred(seven) => {
            line.put_all(b" barred");
            put_identity(line, first_four(seven));
        }
    }
}

fn last_three(other: Peer) -> Words {
    match other {
        Peer::Nobody => mode_a::SILENCE,
        Peer::Four(_) => mode_a::SILENCE,
        Peer::Known(seven) => Words(seven.4, seven.5, seven.6),
        Peer::Barred(seven) => Words(seven.4, seven.5, seven.6),
    }
}

// A part of the line that is three words.
fn put_part(line: &mut Room, words: Words) {
    line.put_all(b" |");
    put_words(line, words);
}

// The role, what the place has of a call, and who is at the other end.
fn put_calls(line: &mut Room, s: Station) {
    let shown = call_fields_of(s.place);
    line.put_all(b" |");
    put_role(line, s.role);
    fields::put_number(line, shown.cycles);
    fields::put_number(line, shown.last);
    put_identity(line, shown.to);
    put_other(line, s.other);
}

// What the place has of identification, and the last three signals of who is at the other end.
fn put_told(line: &mut Room, s: Station) {
    let shown = tell_fields_of(s.place);
    line.put_all(b" |");
    fields::put_number(line, shown.heard3);
    fields::put_number(line, shown.stage);
    fields::put_number(line, shown.wrong);
    fields::put_number(line, shown.last);
    put_seven(line, shown.signals);
    put_words(line, last_three(s.other));
}

// What is owed of an answer.
fn put_owed(line: &mut Room, owed: Owed) {
    match owed {
        Owed::Nothing => line.put_all(b" | none 0"),
        Owed::Back(index) => {
            line.put_all(b" | back");
            fields::put_number(line, index);
        }
        Owed::Keep(index) => {
            line.put_all(b" | keep");
            fields::put_number(line, index);
        }
    }
}

fn put_reply(line: &mut Room, reply: Reply) {
    put_station(line, reply.station);
    put_part(line, reply.sent);
    put_part(line, reply.printed);
    line.put_all(b" |");
    fields::put_flag(line, reply.taken);
    put_calls(line, reply.station);
    put_told(line, reply.station);
    put_owed(line, reply.station.owed);
}

fn put_answer(line: &mut Room, stepped: Result<Reply, Refused>) {
    match stepped {
        Ok(reply) => put_reply(line, reply),
        Err(refused) => {
            let (number, value) = refused.why.told();
            filters::put_refusal(line, number, value as u64);
        }
    }
}

fn answer(stream: &mut Streams, record: &[u8; 84]) {
    let stepped = station::step(
        written::station_of(record),
        written::burst_of(record),
        written::offer_of(record),
    );
    // no line comes to be full
    let mut room = [0u8; 224];
    let mut line = Room::new(&mut room);
    put_answer(&mut line, stepped);
    stream.put_line(line);
}

// A short last record is ignored.
fn run(rt: HostRuntime) -> Result<(), ExitCode> {
    filters::no_words(rt, b"steps")?;
    let mut input = [0u8; 4096];
    let mut output = [0u8; 4096];
    let mut stream = Streams::new(rt, &mut input, &mut output);
    let mut record = [0u8; 84];
    for _ in 0..u64::MAX {
        if stream.record(&mut record) != 84 {
            break;
        }
        answer(&mut stream, &record);
    }
    stream.finish(b"steps")
}

fn main(rt: HostRuntime) -> ExitCode {
    filters::status_after(run(rt))
}

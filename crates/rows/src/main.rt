// Writes the table of actions, a line a cell, then the kind of each burst of three bytes that it reads (docs/FORMATS.md).
#![tactic(auto)]

use filters::Streams;
use identity::Seven;
use mode_a::{
    Called, Called3, Ended, Gathered, Held, Identified, Identity, Mark, Number, Place, Stage,
    Succession, Waiting, Words,
};
use numbers::Room;
use std::process::ExitCode;
use table::{Action, Kind};

const NO_SEVEN: Seven = Seven(0, 0, 0, 0, 0, 0, 0);

// The places and the kinds in 01's order, and those of calls behind them. What a place holds does not choose its row.
const PLACES: [Place; 12] = [
    Place::Sending(Held {
        number: Number::One,
        block: mode_a::SILENCE,
    }),
    Place::Turning(Number::One),
    Place::Opening,
    Place::Ending(Ended {
        number: Number::One,
        total: 1,
    }),
    Place::Receiving(Number::One),
    Place::Asking,
    Place::StandBy(Waiting {
        wait: 0,
        heard: Mark::None,
        heard3: Succession::None,
    }),
    Place::Lost,
    Place::Calling(Called {
        to: Identity(0, 0, 0, 0),
        sent: 1,
        last: Mark::None,
    }),
    Place::Calling3(Called3 {
        to: NO_SEVEN,
        sent: 1,
    }),
    Place::Identifying(Identified {
        to: NO_SEVEN,
        stage: Stage::One,
        wrong: 0,
        last: 0,
    }),
    Place::Answering(Gathered {
        stage: Stage::One,
        got: NO_SEVEN,
    }),
];

const KINDS: [Kind; 18] = [
    Kind::Cs1Block,
    Kind::Cs1,
    Kind::Cs2Block,
    Kind::Cs2,
    Kind::Cs3Block,
    Kind::Cs3,
    Kind::Cs4Block,
    Kind::Cs4,
    Kind::Cs5Block,
    Kind::Cs5,
    Kind::LetterBlock,
    Kind::Letter,
    Kind::Rqs,
    Kind::Rq,
    Kind::Block,
    Kind::Turn,
    Kind::Alphas,
    Kind::Else,
];

// The kinds' names, by their columns.
const KIND_NAMES: [&[u8]; 18] = [
    b"cs1-block",
    b"cs1",
    b"cs2-block",
    b"cs2",
    b"cs3-block",
    b"cs3",
    b"cs4-block",
    b"cs4",
    b"cs5-block",
    b"cs5",
    b"letter-block",
    b"letter",
    b"rqs",
    b"rq",
    b"block",
    b"turn",
    b"alphas",
    b"else",
];

// A space and the kind.
#[tactic(auto, using(crate::proofs::Columns::column_lt))]
fn put_kind(line: &mut Room, kind: Kind) {
    line.put(32);
    line.put_all(KIND_NAMES[table::column_of(kind)]);
}

fn name_of(action: Action) -> &'static [u8] {
    match action {
        Action::Asked1 => b"asked-1",
        Action::Asked2 => b"asked-2",
        Action::Turn => b"turn",
        Action::Rqs => b"rqs",
        Action::TurnAgain => b"turn-again",
        Action::Receive => b"receive",
        Action::ReceiveIfSlave => b"receive-if-slave",
        Action::Take1 => b"take-1",
        Action::Take2 => b"take-2",
        Action::StandBy => b"stand-by",
        Action::Request => b"request",
        Action::Ended1 => b"ended-1",
        Action::Ended2 => b"ended-2",
        Action::EndAgain => b"end-again",
        Action::Accept => b"accept",
        Action::AskAgain => b"ask-again",
        Action::Finish => b"finish",
        Action::Cs3Again => b"cs3-again",
        Action::Open => b"open",
        Action::Listen => b"listen",
        Action::Silent => b"silent",
        Action::Called1 => b"called-1",
        Action::Called2 => b"called-2",
        Action::CallStops => b"call-stops",
        Action::CallOn => b"call-on",
        Action::Identify => b"identify",
        Action::Call3Ends => b"call3-ends",
        Action::Call3Stops => b"call3-stops",
        Action::Call3On => b"call3-on",
        Action::TakeIfLast => b"take-if-last",
        Action::TurnIfLast => b"turn-if-last",
        Action::Compare => b"compare",
        Action::BlockAgain => b"block-again",
        Action::MeetIfLast => b"meet-if-last",
        Action::Leave => b"leave",
        Action::Gather => b"gather",
    }
}

// A space and the action.
fn put_action(line: &mut Room, action: Action) {
    line.put(32);
    line.put_all(name_of(action));
}

fn put_cell(stream: &mut Streams, place: Place, kind: Kind) {
    let mut room = [0u8; 64];
    let mut line = Room::new(&mut room);
    fields::put_place(&mut line, place);
    put_kind(&mut line, kind);
    put_action(&mut line, table::action_at(place, kind));
    stream.put_line(line);
}

fn put_heard(stream: &mut Streams, burst: [u8; 3]) {
    let [one, two, three] = burst;
    let mut room = [0u8; 64];
    let mut line = Room::new(&mut room);
    line.put_number(one);
    fields::put_number(&mut line, two);
    fields::put_number(&mut line, three);
    put_kind(&mut line, table::kind_of(Words(one, two, three)));
    stream.put_line(line);
}

// The table, and then a line a burst. A short last burst is ignored.
fn run(rt: HostRuntime) -> Result<(), ExitCode> {
    filters::no_words(rt, b"rows")?;
    let mut input = [0u8; 4096];
    let mut output = [0u8; 4096];
    let mut stream = Streams::new(rt, &mut input, &mut output);
    for place in PLACES {
        for kind in KINDS {
            put_cell(&mut stream, place, kind);
        }
    }
    let mut burst = [0u8; 3];
    for _ in 0..u64::MAX {
        if stream.record(&mut burst) != 3 {
            break;
        }
        put_heard(&mut stream, burst);
    }
    stream.finish(b"rows")
}

fn main(rt: HostRuntime) -> ExitCode {
    filters::status_after(run(rt))
}

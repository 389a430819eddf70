// The reason for the answer of one step a record, of a station that is written out in the 17 bytes of the base (docs/FORMATS.md).
#![tactic(auto)]

use filters::Streams;
use numbers::Room;
use std::process::ExitCode;

fn answer(stream: &mut Streams, record: &[u8; 84]) {
    let why = help_desk::why(
        written::station_of(record),
        written::burst_of(record),
        written::offer_of(record),
    );
    // no line comes to be full
    let mut room = [0u8; 32];
    let mut line = Room::new(&mut room);
    written::put_why(&mut line, why);
    stream.put_line(line);
}

// What is read are the first 17 bytes of a record of `steps`, of which the others are 0. The base has eight places and four offers. A
// short last record is ignored.
fn run(rt: HostRuntime) -> Result<(), ExitCode> {
    filters::no_words(rt, b"why")?;
    let mut input = [0u8; 4096];
    let mut output = [0u8; 4096];
    let mut stream = Streams::new(rt, &mut input, &mut output);
    let mut record = [0u8; 84];
    for _ in 0..u64::MAX {
        if stream.record(&mut record[..17]) != 17 {
            break;
        }
        record[1] %= 8;
        record[13] %= 4;
        answer(&mut stream, &record);
    }
    stream.finish(b"why")
}

fn main(rt: HostRuntime) -> ExitCode {
    filters::status_after(run(rt))
}

// What the programs share beside `filters` (docs/FORMATS.md): fields as a record has them, and fields and names put into a line.
// As in `numbers`, a full line takes no more.
#![tactic(auto)]

use mode_a::{Place, Refused, Reply};
use numbers::Room;
use signals::Case;

// KEPT: a record's byte is taken modulo the number of cases, which is the records' rule (docs/FORMATS.md) and no conversion of `Case`: a
// `From` would say no more, and would stand in `signals`, which knows of no records. So of `written`'s and `calls`' bytes.
pub fn case_of(byte: u8) -> Case {
    if byte % 2 == 0 {
        Case::Letters
    } else {
        Case::Figures
    }
}

pub fn put_case(line: &mut Room, case: Case) {
    match case {
        Case::Letters => line.put_all(b" letters"),
        Case::Figures => line.put_all(b" figures"),
    }
}

// A space and the number.
pub fn put_number(line: &mut Room, number: u8) {
    line.put(32);
    line.put_number(number);
}

pub fn put_flag(line: &mut Room, flag: bool) {
    line.put_all(if flag { b" 1" } else { b" 0" });
}

pub fn put_place(line: &mut Room, place: Place) {
    match place {
        Place::Sending(_) => line.put_all(b"sending"),
        Place::Turning(_) => line.put_all(b"turning"),
        Place::Opening => line.put_all(b"opening"),
        Place::Ending(_) => line.put_all(b"ending"),
        Place::Receiving(_) => line.put_all(b"receiving"),
        Place::Asking => line.put_all(b"asking"),
        Place::StandBy(_) => line.put_all(b"standby"),
        Place::Lost => line.put_all(b"lost"),
        Place::Calling(_) => line.put_all(b"calling"),
        Place::Calling3(_) => line.put_all(b"calling3"),
        Place::Identifying(_) => line.put_all(b"identifying"),
        Place::Answering(_) => line.put_all(b"answering"),
    }
}

// A step's answer. A refusal sends and prints nothing.
pub fn reply_of(stepped: Result<Reply, Refused>) -> Reply {
    stepped.unwrap_or_else(|refused| Reply {
        station: refused.station,
        sent: mode_a::SILENCE,
        printed: mode_a::SILENCE,
        taken: false,
    })
}

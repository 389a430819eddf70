// What the programs share of stations that are written out, in a record of `steps` of 84 bytes, and of the lines that name a reason
// (docs/FORMATS.md). As in `numbers`, a full line takes no more.
#![tactic(auto)]

use identity::Seven;
use mode_a::{
    Called, Called3, Code, Ended, Gathered, Held, Identified, Identity, Mark, Number, Offer, Owed,
    Own, Peer, Place, Refusal, Role, Stage, Station, Succession, Waiting, Words,
};
use numbers::Room;
use reasons::{Reason, Star};

fn role_of(byte: u8) -> Role {
    if byte % 2 == 0 {
        Role::Master
    } else {
        Role::Slave
    }
}

fn number_of(byte: u8) -> Number {
    if byte % 2 == 0 {
        Number::Two
    } else {
        Number::One
    }
}

fn mark_of(byte: u8) -> Mark {
    match byte % 3 {
        0 => Mark::None,
        1 => Mark::One,
        _ => Mark::Two,
    }
}

fn succession_of(byte: u8) -> Succession {
    match byte % 5 {
        0 => Succession::None,
        1 => Succession::One,
        2 => Succession::OneTwo,
        3 => Succession::Two,
        _ => Succession::TwoThree,
    }
}

fn stage_of(byte: u8) -> Stage {
    match byte % 4 {
        0 => Stage::One,
        1 => Stage::Two,
        2 => Stage::Three,
        _ => Stage::Four,
    }
}

// The identity called, or what is gathered.
fn signals_of(record: &[u8; 84]) -> Seven {
    Seven(
        record[49], record[50], record[51], record[52], record[53], record[54], record[55],
    )
}

fn place_of(record: &[u8; 84]) -> Place {
    let number = number_of(record[2]);
    match record[1] % 12 {
        0 => Place::Sending(Held {
            number,
            block: Words(record[3], record[4], record[5]),
        }),
        1 => Place::Turning(number),
        2 => Place::Opening,
        3 => Place::Ending(Ended {
            number,
            total: record[6],
        }),
        4 => Place::Receiving(number),
        5 => Place::Asking,
        6 => Place::StandBy(Waiting {
            wait: record[17],
            heard: mark_of(record[18]),
            heard3: succession_of(record[45]),
        }),
        7 => Place::Lost,
        8 => Place::Calling(Called {
            to: Identity(record[3], record[4], record[5], record[6]),
            sent: record[17],
            last: mark_of(record[18]),
        }),
        9 => Place::Calling3(Called3 {
            to: signals_of(record),
            sent: record[17],
        }),
        10 => Place::Identifying(Identified {
            to: signals_of(record),
            stage: stage_of(record[46]),
            wrong: record[47],
            last: record[48],
        }),
        _ => Place::Answering(Gathered {
            stage: stage_of(record[46]),
            got: signals_of(record),
        }),
    }
}

fn other_of(record: &[u8; 84]) -> Peer {
    let seven = Seven(
        record[24], record[25], record[26], record[27], record[39], record[40], record[41],
    );
    match record[23] % 4 {
        0 => Peer::Nobody,
        1 => Peer::Four(Identity(record[24], record[25], record[26], record[27])),
        2 => Peer::Known(seven),
        _ => Peer::Barred(seven),
    }
}

// The answer-back code: 20 words of it.
fn code_of(record: &[u8; 84]) -> Code {
    Code {
        length: record[60],
        first: Words(record[61], record[62], record[63]),
        second: Words(record[64], record[65], record[66]),
        third: Words(record[67], record[68], record[69]),
        fourth: Words(record[70], record[71], record[72]),
        fifth: Words(record[73], record[74], record[75]),
        sixth: Words(record[76], record[77], record[78]),
        seventh: Words(record[79], record[80], 0),
    }
}

fn owed_of(record: &[u8; 84]) -> Owed {
    match record[81] % 3 {
        0 => Owed::Nothing,
        1 => Owed::Back(record[82]),
        _ => Owed::Keep(record[82]),
    }
}

pub fn station_of(record: &[u8; 84]) -> Station {
    Station {
        role: role_of(record[0]),
        place: place_of(record),
        count: record[7],
        case: fields::case_of(record[8]),
        plus: record[9] % 2 == 1,
        own: Own {
            four: Identity(record[19], record[20], record[21], record[22]),
            seven: Seven(
                record[32], record[33], record[34], record[35], record[36], record[37], record[38],
            ),
            code: code_of(record),
        },
        other: other_of(record),
        owed: owed_of(record),
    }
}

pub fn offer_of(record: &[u8; 84]) -> Offer {
    match record[13] % 6 {
        0 => Offer::Nothing,
        1 => Offer::Text(Words(record[14], record[15], record[16])),
        2 => Offer::Over,
        3 => Offer::End,
        4 => Offer::Call(Identity(record[28], record[29], record[30], record[31])),
        _ => Offer::Call3(Seven(
            record[28], record[29], record[30], record[31], record[42], record[43], record[44],
        )),
    }
}

// The burst heard.
pub fn burst_of(record: &[u8; 84]) -> Words {
    Words(record[10], record[11], record[12])
}

fn put_reason(line: &mut Room, reason: Reason) {
    match reason {
        Reason::Silent => line.put_all(b"silent"),
        Reason::TimeOut => line.put_all(b"time-out"),
        Reason::RunOut => line.put_all(b"run-out"),
        Reason::Called => line.put_all(b"called"),
        Reason::CallOffered => line.put_all(b"call-offered"),
        Reason::Own => line.put_all(b"own"),
        Reason::Other => line.put_all(b"other"),
        Reason::Either => line.put_all(b"either"),
        Reason::Cs1 => line.put_all(b"cs1"),
        Reason::Cs3 => line.put_all(b"cs3"),
        Reason::Cs4 => line.put_all(b"cs4"),
        Reason::Cs5 => line.put_all(b"cs5"),
        Reason::Rq => line.put_all(b"rq"),
        Reason::Turn => line.put_all(b"turn"),
        Reason::Alphas => line.put_all(b"alphas"),
        Reason::RightSum => line.put_all(b"right-sum"),
        Reason::WrongSum => line.put_all(b"wrong-sum"),
        Reason::Told => line.put_all(b"told"),
        Reason::ToldAgain => line.put_all(b"told-again"),
        Reason::Bad(index, word) => {
            line.put_all(b"bad ");
            filters::put_decimal(line, index as u64);
            fields::put_number(line, word);
        }
        Reason::Repeat(index) => {
            line.put_all(b"repeat ");
            filters::put_decimal(line, index as u64);
        }
        Reason::Unexpected => line.put_all(b"unexpected"),
        Reason::OverHeard => line.put_all(b"over-heard"),
        Reason::WhoAreYou => line.put_all(b"who-are-you"),
        Reason::OverOffered => line.put_all(b"over-offered"),
        Reason::Accepted => line.put_all(b"accepted"),
    }
}

// The reason for an answer, or the refusal.
pub fn put_why(line: &mut Room, why: Result<Reason, Refusal>) {
    match why {
        Ok(reason) => put_reason(line, reason),
        Err(refusal) => {
            let (number, value) = refusal.told();
            filters::put_refusal(line, number, value as u64);
        }
    }
}

fn put_copies(line: &mut Room, name: &[u8], dx: u8, rx: u8) {
    line.put_all(name);
    fields::put_number(line, dx);
    fields::put_number(line, rx);
}

// The reason for an error mark, and the two words.
pub fn put_star(line: &mut Room, star: Option<Star>) {
    match star {
        None => line.put_all(b"none"),
        Some(Star::BothBad(dx, rx)) => put_copies(line, b"bad", dx, rx),
        Some(Star::Unlike(dx, rx)) => put_copies(line, b"unlike", dx, rx),
    }
}

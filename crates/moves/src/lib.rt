// What Sending, Opening and Ending do with what they hear (01, The station): the moves that ask more than which action it is. What each action
// of the table does at a place is crate `doings`.
#![tactic(auto)]

ghost use Rattle.std.specs.Prelude.{◌≡◌};
ghost use Rattle.mode_a.specs.Rows.{requests};
ghost use Rattle.moves.specs.Moves.{asked, ends_again, ended};

use mode_a::{Doing, Ended, Number, Place, Role, Station, Words};

// One RQ if master, three if slave.
pub fn requests(role: Role) -> Words
    ensures { result ≡ requests role }
{
    match role {
        Role::Master => Words(signals::RQ, 0, 0),
        Role::Slave => mode_a::RQS,
    }
}

// Sending that hears the control signal of a number.
pub fn asked(heard: Number, number: Number, block: Words) -> Doing
    ensures { result ≡ asked heard number block }
{
    if heard == number {
        return Doing::Repeats(block);
    }
    Doing::Takes(number.other())
}

// Ending that hears anything but the other number's control signal.
pub fn ends_again(number: Number, total: u8) -> Doing
    ensures { result ≡ ends_again number total }
{
    if Station::ENDINGS <= total {
        return Doing::Rests(0, mode_a::SILENCE);
    }
    Doing::Goes(
        Place::Ending(Ended {
            number: number,
            total: total + 1,
        }),
        mode_a::ALPHAS,
    )
}

// Ending that hears the control signal of a number.
pub fn ended(heard: Number, number: Number, total: u8) -> Doing
    ensures { result ≡ ended heard number total }
{
    if heard == number {
        return ends_again(number, total);
    }
    Doing::Rests(0, mode_a::SILENCE)
}

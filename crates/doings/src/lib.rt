// What each action of the table does at a place: the code's side of 01's rows (01, The station; 02, T-02, T-05 and T-06). The law `rows_agree`
// says that table and actions together are the rows of `mode_a`. What an action asks further is told by `carried`, `moves`, `calling`,
// `calling3`, `identifying` and `answering`.
#![tactic(auto)]

ghost use Rattle.std.specs.Prelude.{◌≡◌};
ghost use Rattle.doings.specs.Doings.{doing_of};

use mode_a::{Doing, Mark, Number, Own, Place, Role, Station, Words};
use table::Action;

// What an action does at a place. Each arm reads from the place, the own identities and the burst what it asks for, and nothing else.
#[tactic(auto, unfolding(crate::specs::Doings::doing_of))]
pub fn doing(action: Action, role: Role, place: Place, own: Own, burst: Words) -> Doing
    ensures { result ≡ doing_of action role place own burst }
{
    match action {
        Action::Asked1 => {
            moves::asked(
                Number::One,
                carried::number_in(place),
                carried::block_in(place),
            )
        },
        Action::Asked2 => {
            moves::asked(
                Number::Two,
                carried::number_in(place),
                carried::block_in(place),
            )
        },
        Action::Turn => Doing::Yields(carried::number_in(place)),
        Action::Rqs => Doing::Repeats(mode_a::RQS),
        Action::TurnAgain => Doing::Repeats(mode_a::TURN),
        Action::Receive => Doing::Receives(carried::number_in(place).other()),
        Action::ReceiveIfSlave => match role {
            Role::Master => Doing::Repeats(mode_a::RQS),
            Role::Slave => Doing::Receives(carried::number_in(place).other()),
        },
        Action::Take1 => Doing::Takes(Number::One),
        Action::Take2 => Doing::Takes(Number::Two),
        Action::StandBy => Doing::Rests(0, mode_a::SILENCE),
        Action::Request => Doing::Repeats(moves::requests(role)),
        Action::Ended1 => {
            moves::ended(
                Number::One,
                carried::number_in(place),
                carried::total_in(place),
            )
        },
        Action::Ended2 => {
            moves::ended(
                Number::Two,
                carried::number_in(place),
                carried::total_in(place),
            )
        },
        Action::EndAgain => {
            moves::ends_again(carried::number_in(place), carried::total_in(place))
        },
        Action::Accept => Doing::Accepts(carried::number_in(place)),
        Action::AskAgain => Doing::Repeats(carried::number_in(place).asks()),
        Action::Finish => Doing::Rests(0, carried::number_in(place).other().asks()),
        Action::Cs3Again => Doing::Repeats(Words(signals::CS3, 0, 0)),
        Action::Open => Doing::Opens,
        Action::Listen => calling::listening(place, own, burst),
        Action::Silent => Doing::Goes(place, mode_a::SILENCE),
        Action::Called1 => calling::called(place, Number::One),
        Action::Called2 => calling::called(place, Number::Two),
        Action::CallStops => Doing::Rests(Station::CALLS, mode_a::SILENCE),
        Action::CallOn => calling::calls_on(place, Mark::None),
        Action::Identify => calling3::identifies(place, own),
        Action::Call3Ends => calling3::ends(place),
        Action::Call3Stops => calling3::stops(place),
        Action::Call3On => calling3::calls_on(place),
        Action::TakeIfLast => identifying::taken_if_last(place, own),
        Action::TurnIfLast => identifying::turned_if_last(place, own),
        Action::Compare => identifying::compared(place, own, burst.0),
        Action::BlockAgain => identifying::block_again(place, own),
        Action::MeetIfLast => answering::met_if_last(place, own, burst),
        Action::Leave => Doing::Rests(0, Words(signals::CS1, 0, 0)),
        Action::Gather => answering::gathered(place, own, burst),
    }
}

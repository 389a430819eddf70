// What a place carries, read from it (01, The station; 02, T-02 and T-05). Where a place carries nothing of the kind, no action asks for it.
#![tactic(auto)]

ghost use Rattle.std.specs.Prelude.{◌≡◌};
ghost use Rattle.carried.specs.Carried.{number_in, block_in, total_in, waiting_in, called_in, called3_in, identified_in, gathered_in};

use identity::Seven;
use mode_a::{
    Called, Called3, Gathered, Identified, Identity, Mark, Number, Place, Stage, Succession,
    Waiting, Words,
};

// The number of the block held, of the last block, of end, or of the block awaited.
pub fn number_in(place: Place) -> Number
    ensures { result ≡ number_in place }
{
    match place {
        Place::Sending(held) => held.number,
        Place::Turning(number) => number,
        Place::Ending(ended) => ended.number,
        Place::Receiving(number) => number,
        _ => Number::One,
    }
}

// The block that Sending holds.
pub fn block_in(place: Place) -> Words
    ensures { result ≡ block_in place }
{
    match place {
        Place::Sending(held) => held.block,
        _ => mode_a::SILENCE,
    }
}

// How often Ending has sent ααα.
pub fn total_in(place: Place) -> u8
    ensures { result ≡ total_in place }
{
    match place {
        Place::Ending(ended) => ended.total,
        _ => 0,
    }
}

const UNHEARD: Waiting = Waiting {
    wait: 0,
    heard: Mark::None,
    heard3: Succession::None,
};

const UNCALLED: Called = Called {
    to: Identity(0, 0, 0, 0),
    sent: 0,
    last: Mark::None,
};

const UNCALLED3: Called3 = Called3 {
    to: Seven(0, 0, 0, 0, 0, 0, 0),
    sent: 0,
};

const UNIDENTIFIED: Identified = Identified {
    to: Seven(0, 0, 0, 0, 0, 0, 0),
    stage: Stage::One,
    wrong: 0,
    last: 0,
};

const UNGATHERED: Gathered = Gathered {
    stage: Stage::One,
    got: Seven(0, 0, 0, 0, 0, 0, 0),
};

// What Stand-by carries.
pub fn waiting_in(place: Place) -> Waiting
    ensures { result ≡ waiting_in place }
{
    match place {
        Place::StandBy(waiting) => waiting,
        _ => UNHEARD,
    }
}

// What Calling carries.
pub fn called_in(place: Place) -> Called
    ensures { result ≡ called_in place }
{
    match place {
        Place::Calling(called) => called,
        _ => UNCALLED,
    }
}

// What Calling with three blocks carries.
pub fn called3_in(place: Place) -> Called3
    ensures { result ≡ called3_in place }
{
    match place {
        Place::Calling3(called) => called,
        _ => UNCALLED3,
    }
}

// What Identifying carries.
pub fn identified_in(place: Place) -> Identified
    ensures { result ≡ identified_in place }
{
    match place {
        Place::Identifying(identified) => identified,
        _ => UNIDENTIFIED,
    }
}

// What Answering carries.
pub fn gathered_in(place: Place) -> Gathered
    ensures { result ≡ gathered_in place }
{
    match place {
        Place::Answering(gathered) => gathered,
        _ => UNGATHERED,
    }
}

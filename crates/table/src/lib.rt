// The table of the step (01, The station: "The step has one row for each place and one column for each kind of burst"; 02, T-02 and T-05): the
// kind of a burst, and the action that a place takes at each kind. What the actions do is crate `doings`.
#![tactic(auto)]

ghost use Rattle.std.specs.Prelude.{◌≡◌, ◌<◌};
ghost use Rattle.mode_a.specs.Station.{words};
ghost use Rattle.mode_a.specs.Heard.{first_of, is_block, is_words};
ghost use Rattle.table.specs.Kinds.{kind_of, block_kind, rest_kind, column_of};
ghost use Rattle.table.specs.Actions.{action_of, row_no};

use mode_a::{Place, Words};

// The eighteen kinds of burst. Beside the kind Stand-by asks which of the own call blocks the burst is, Identifying which letter comes
// first, and Answering which identification block it is (`heard_kind`); no row needs more, and each pair of kinds is told apart by some
// place (`kinds_apart`). ORDER: a kind's place here is its column.
#[derive(Clone, Copy)]
pub enum Kind {
    // CS1 to CS5 first: a block (all three words traffic or β), or otherwise
    Cs1Block,
    Cs1,
    Cs2Block,
    Cs2,
    Cs3Block,
    Cs3,
    Cs4Block,
    Cs4,
    Cs5Block,
    Cs5,
    // a letter of table 3a first: a block, or otherwise
    LetterBlock,
    Letter,
    // RQ first: three of them, or otherwise
    Rqs,
    Rq,
    // another word first: a block, βαβ, ααα, or anything else
    Block,
    Turn,
    Alphas,
    Else,
}

// What a place does with a kind of burst.
#[derive(Clone, Copy)]
pub enum Action {
    // Sending: the control signal of number 1, of number 2; CS3; all else
    Asked1,
    Asked2,
    Turn,
    Rqs,
    // Turning: βαβ again; Receiving; Receiving if slave, else RQ RQ RQ
    TurnAgain,
    Receive,
    ReceiveIfSlave,
    // Opening: take the offer under 1, under 2; Stand-by; RQ by the role
    Take1,
    Take2,
    StandBy,
    Request,
    // Ending: the control signal of number 1, of number 2; ααα again
    Ended1,
    Ended2,
    EndAgain,
    // Receiving: accept; ask again; ααα heard
    Accept,
    AskAgain,
    Finish,
    // Asking: CS3 again; βαβ heard
    Cs3Again,
    Open,
    // Stand-by: by which of the own call blocks the burst is, if any
    Listen,
    // Lost
    Silent,
    // Calling: the control signal of number 1, of number 2; CS3; all else
    Called1,
    Called2,
    CallStops,
    CallOn,
    // Calling with three blocks: CS4; CS5; CS3; all else
    Identify,
    Call3Ends,
    Call3Stops,
    Call3On,
    // Identifying: CS1 and CS3, which count at the fourth stage; a letter, which is a check-sum before it; all else
    TakeIfLast,
    TurnIfLast,
    Compare,
    BlockAgain,
    // Answering: RQ RQ RQ, which counts at the fourth stage; ααα; all else, by which identification block the burst is
    MeetIfLast,
    Leave,
    Gather,
}

// Whether a burst is these three words.
#[tactic(auto, unfolding(mode_a::specs::Heard::is_words))]
pub fn is_words(b: Words, x: u8, y: u8, z: u8) -> bool
    ensures { result ≡ is_words b (words x y z) }
{
    b == Words(x, y, z)
}

// The second word is looked at first: a control signal has 0 behind it, and such a burst is done with at once.
#[tactic(auto, using(crate::proofs::KindLaws::no_block_at_0), unfolding(mode_a::specs::Heard::is_block))]
fn is_block(b: Words) -> bool
    ensures { result ≡ is_block b }
{
    b.1 != 0 && mode_a::may_hold(b.1) && mode_a::may_hold(b.2) && mode_a::may_hold(b.0)
}

// The kind of a block that begins with this word; and of a burst that does, and is neither a block nor one of the three bursts named.
#[tactic(auto, unfolding(mode_a::specs::Heard::first_of, mode_a::specs::Heard::further_of))]
fn kinds_by_first(first: u8) -> (Kind, Kind)
    ensures { result ≡ (block_kind (first_of first), rest_kind (first_of first)) }
{
    match first {
        signals::CS1 => (Kind::Cs1Block, Kind::Cs1),
        signals::CS2 => (Kind::Cs2Block, Kind::Cs2),
        signals::CS3 => (Kind::Cs3Block, Kind::Cs3),
        signals::RQ => (Kind::Rq, Kind::Rq),
        signals::CS4 => (Kind::Cs4Block, Kind::Cs4),
        signals::CS5 => (Kind::Cs5Block, Kind::Cs5),
        letter if identity::may_identify(letter) => (Kind::LetterBlock, Kind::Letter),
        _ => (Kind::Block, Kind::Else),
    }
}

#[tactic(auto, unfolding(crate::specs::Kinds::kind_of, mode_a::specs::Heard::is_words))]
pub fn kind_of(b: Words) -> Kind
    ensures { result ≡ kind_of b }
{
    let (block, rest) = kinds_by_first(b.0);
    if is_block(b) {
        block
    } else if b == mode_a::RQS {
        Kind::Rqs
    } else if b == mode_a::ALPHAS {
        Kind::Alphas
    } else if b == mode_a::TURN {
        Kind::Turn
    } else {
        rest
    }
}

// The number of a place, from 0: its row here, and its number in a record (docs/FORMATS.md).
pub fn row_no(place: Place) -> usize
    ensures row { result ≡ row_no place }
    ensures below { result < 12 }
{
    match place {
        Place::Sending(_) => 0,
        Place::Turning(_) => 1,
        Place::Opening => 2,
        Place::Ending(_) => 3,
        Place::Receiving(_) => 4,
        Place::Asking => 5,
        Place::StandBy(_) => 6,
        Place::Lost => 7,
        Place::Calling(_) => 8,
        Place::Calling3(_) => 9,
        Place::Identifying(_) => 10,
        Place::Answering(_) => 11,
    }
}

// The number of a kind's column, from 0.
pub fn column_of(kind: Kind) -> usize
    ensures { result ≡ column_of kind }
{
    kind as usize
}

// The action of a place at a kind of burst. The table stands on its side: a line is a kind's column, and from left to right are the
// rows of Sending, Turning, Opening, Ending, Receiving, Asking, Stand-by, Lost, Calling, Calling with three blocks, Identifying and
// Answering. The actions are locals, since to the check each use of a constant would be a local of its own.
pub fn action_at(place: Place, kind: Kind) -> Action
    ensures { result ≡ action_of place kind }
{
    let row = row_no(place);
    let column = column_of(kind);
    let as1 = Action::Asked1;
    let as2 = Action::Asked2;
    let trn = Action::Turn;
    let rqs = Action::Rqs;
    let tag = Action::TurnAgain;
    let rcv = Action::Receive;
    let rcs = Action::ReceiveIfSlave;
    let tk1 = Action::Take1;
    let tk2 = Action::Take2;
    let sby = Action::StandBy;
    let req = Action::Request;
    let en1 = Action::Ended1;
    let en2 = Action::Ended2;
    let end = Action::EndAgain;
    let acc = Action::Accept;
    let ask = Action::AskAgain;
    let fin = Action::Finish;
    let cs3 = Action::Cs3Again;
    let opn = Action::Open;
    let lis = Action::Listen;
    let sil = Action::Silent;
    let cl1 = Action::Called1;
    let cl2 = Action::Called2;
    let stp = Action::CallStops;
    let cll = Action::CallOn;
    let idf = Action::Identify;
    let c3e = Action::Call3Ends;
    let c3s = Action::Call3Stops;
    let c3o = Action::Call3On;
    let tkl = Action::TakeIfLast;
    let tnl = Action::TurnIfLast;
    let cmp = Action::Compare;
    let blk = Action::BlockAgain;
    let met = Action::MeetIfLast;
    let lev = Action::Leave;
    let gth = Action::Gather;
    let cells = [
        // Se Tu   Op   En   Re   As   St   Lo   Ca   C3   Id   An
        [as1, rqs, tk1, en1, acc, cs3, lis, sil, cl1, c3o, tkl, gth], // CS1, a block
        [as1, rqs, tk1, en1, ask, cs3, lis, sil, cl1, c3o, tkl, gth], // CS1
        [as2, rqs, tk2, en2, acc, cs3, lis, sil, cl2, c3o, blk, gth], // CS2, a block
        [as2, rqs, tk2, en2, ask, cs3, lis, sil, cl2, c3o, blk, gth], // CS2
        [trn, tag, sby, end, acc, cs3, lis, sil, stp, c3s, tnl, gth], // CS3, a block
        [trn, tag, sby, end, ask, cs3, lis, sil, stp, c3s, tnl, gth], // CS3
        [rqs, rqs, req, end, acc, cs3, lis, sil, cll, idf, blk, gth], // CS4, a block
        [rqs, rqs, req, end, ask, cs3, lis, sil, cll, idf, blk, gth], // CS4
        [rqs, rqs, req, end, acc, cs3, lis, sil, cll, c3e, blk, gth], // CS5, a block
        [rqs, rqs, req, end, ask, cs3, lis, sil, cll, c3e, blk, gth], // CS5
        [rqs, rqs, req, end, acc, cs3, lis, sil, cll, c3o, cmp, gth], // a letter, a block
        [rqs, rqs, req, end, ask, cs3, lis, sil, cll, c3o, cmp, gth], // a letter
        [rqs, rcv, req, end, ask, cs3, lis, sil, cll, c3o, blk, met], // RQ RQ RQ
        [rqs, rcs, req, end, ask, cs3, lis, sil, cll, c3o, blk, gth], // RQ
        [rqs, rqs, req, end, acc, cs3, lis, sil, cll, c3o, blk, gth], // another block
        [rqs, rqs, req, end, ask, opn, lis, sil, cll, c3o, blk, gth], // βαβ
        [rqs, rqs, req, end, fin, cs3, lis, sil, cll, c3o, blk, lev], // ααα
        [rqs, rqs, req, end, ask, cs3, lis, sil, cll, c3o, blk, gth], // else
    ];
    cells[column][row]
}

// The walk over a record (02, T-07): two fresh stations are run over its entries, one by one, and what each prints is counted, or written
// into its room as far as that reaches. The call is `passing::passage`.
#![tactic(auto)]

ghost use Rattle.std.specs.Prelude.{◌≡◌};
ghost use Rattle.entries.specs.Passage.{begins};
ghost use Rattle.walking.specs.Walk.{walk_of, MayTell, Tells, Judges, Looks, Walks};

use entries::{Entry, PassError, Printed, Reader, Standing};
use mode_a::Role;
use replay::State;
use signals::Case;
use telling::Fault;
use typing::Typed;

// A walk between two entries: the two stations, and what each has printed.
#[derive(Clone, Copy)]
struct Walk {
    state: State,
    master: Typed,
    slave: Typed,
}

// Before the first entry.
#[tactic(auto, unfolding(text::specs::Printing::printed, text::specs::Printing::ends_printed, runs::specs::Circuit::after))]
fn begin() -> Walk
    ensures { result ≡ walk_of begins }
{
    let none = Typed {
        to: 0,
        case: Case::Letters,
    };
    Walk {
        state: replay::fresh(),
        master: none,
        slave: none,
    }
}

// Tells an entry without a fault.
fn tell(walk: Walk, entry: Entry, master: &mut [u8], slave: &mut [u8], write: bool) -> Walk
    requires { MayTell walk }
    ensures { Tells walk entry write master.old slave.old result master.new slave.new }
{
    let gone = replay::goes(walk.state, entry);
    let after = Walk {
        state: gone.state,
        ..walk
    };
    match gone.by {
        Role::Master => Walk {
            master: typing::put(gone.printed, walk.master, master, write),
            ..after
        },
        Role::Slave => Walk {
            slave: typing::put(gone.printed, walk.slave, slave, write),
            ..after
        },
    }
}

// Judges an entry, whose kind stands at `at`.
fn judge(standing: Standing, entry: Entry, at: usize) -> Result<(), PassError>
    ensures { Judges standing entry at result }
{
    telling::fault_of(standing, entry).map_err(|fault| match fault {
        Fault::BadBurst => PassError::BadBurst(at),
        Fault::StillOffered => PassError::StillOffered(at),
        Fault::BadWord => PassError::BadWord(at),
    })
}

// Reads the next entry, and judges it; or nothing, where the record ends.
fn look_at(reader: &mut Reader<'_>, standing: Standing) -> Result<Option<Entry>, PassError>
    ensures { Looks reader.old.bytes.now reader.old.at standing result reader.new.bytes.now reader.new.at }
{
    let at = reader.at;
    let Some(entry) = reader.next_entry()? else {
        return Ok(None);
    };
    judge(standing, entry, at)?;
    Ok(Some(entry))
}

// Runs two fresh stations over the entries from this place of a record on, up to the first that has a fault. Where `write` is false the record
// is judged, and the rooms stay as they are, whatever is answered; where it is true each room has the text so far, as far as it reaches.
// KEPT: the two rooms are two parameters, as makers lend them to `passing::passage`: a struct of both would be made there for each of the two
// walks and be taken apart in `tell`. The loop counts no index, so it stays `while let` with `?`.
pub fn walked(
    from: Reader<'_>,
    master: &mut [u8],
    slave: &mut [u8],
    write: bool,
) -> Result<Printed, PassError>
    ensures { Walks write from.entry.bytes.now from.entry.at master.old slave.old result master.new slave.new }
{
    let mut reader = from;
    let mut walk = begin();
    while let Some(entry) = look_at(&mut reader, walk.state.standing)? {
        walk = tell(walk, entry, master, slave, write);
    }
    Ok(Printed {
        master: walk.master.to,
        slave: walk.slave.to,
    })
}

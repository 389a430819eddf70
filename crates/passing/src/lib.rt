// A passage run again ashore (02, T-07): two fresh stations over a record of the damage, and what each printed into a lent room. The record
// is walked twice: once to judge it, with the run that refusal 13 depends on, and once to print. It is never copied.
#![tactic(auto)]

ghost use Rattle.entries.specs.Passing.{PassesFrom, Passes};

use entries::{PassError, Printed, Reader};

// Runs over the record from where the reader stands: judged first, and then printed.
fn run(reader: Reader<'_>, master: &mut [u8], slave: &mut [u8]) -> Result<Printed, PassError>
    ensures { PassesFrom reader.entry.bytes.now reader.entry.at master.old slave.old result master.new slave.new }
{
    let needed = walking::walked(reader, master, slave, false)?;
    if master.len() < needed.master {
        return Err(PassError::NoRoom(needed.master));
    }
    if slave.len() < needed.slave {
        return Err(PassError::NoRoom(needed.slave));
    }
    walking::walked(reader, master, slave, true)
}

// Runs a fresh master and a fresh slave over `bytes`, a record (02, T-07), and prints what each received into `master` and into `slave`:
// answers how many bytes each printed. Refuses 10, 11, 12, 13 and 3 with the place of the first entry that has a fault, then 2, the master's
// room first, with the room needed. A refusal leaves both rooms as they were.
pub fn passage(bytes: &[u8], master: &mut [u8], slave: &mut [u8]) -> Result<Printed, PassError>
    ensures { Passes bytes.now master.old slave.old result master.new slave.new }
{
    run(Reader { bytes, at: 0 }, master, slave)
}

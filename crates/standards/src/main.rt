// Writes the tables that the GPS standards print, and known places, from the engine's calls, and the stages of G2 from the engine's own table. Three tables have
// a row for each PRN from 1 to 37, L2's end states stand at `machine`'s places of a period's last chip, and P's generators are those of PRN 1, as `tables` says;
// all else of which PRNs and at which places a table has rows is written in `layout`. The file `stdout` has what the standards print, and the gate compares the
// two.
#![tactic(auto)]

use arrayvec::ArrayString;
use std::fmt::Write;
use std::io;

mod chips;
mod code_phases;
mod known;
mod tables;

// Room for all that is written: more than the tables and the places have, which are some 11,900 bytes.
const ROOM: usize = 16_384;

// All is formatted before any of it is written, in one write where the system takes so much at once.
// A write that fails is told and ends it.
fn main(rt: HostRuntime) -> io::Result<()> {
    let mut text = ArrayString::<ROOM>::new();
    write!(text, "{}{}", tables::Tables, known::KnownPlaces).map_err(|_| io::Error::from(
        io::ErrorKind::InvalidInput,
    ))?;
    rt.write_all(text.as_str().as_bytes())
}

// Lists every set of faulty links of a small net: reads a schedule, of which the first line, `net n t`, matters alone, from standard input
// and writes the lines of the sets to standard output. What goes wrong on the way is said on standard error, in one line.

#![tactic(auto)]

use input::program::{Program, run_program};
use limits::LONGEST_SCHEDULE;
use parts::part;
use set_text::{SETS_ROOM, sets_text};
use std::io;

struct Hillfaults;

impl Program for Hillfaults {
    const NAME: &'static str = "hillfaults";

    const USAGE: &'static [u8] =
        b"usage: hillfaults < SCHEDULE    prints each set of links that can be faulty in the net of line 1, `net n t`, up to 6 bases\n";

    const NONE_TAKEN: &'static [u8] =
        b"hillfaults: no argument is taken; `net n t`, or a schedule that begins with it, is read from standard input\n";

    // Writes the lines.
    fn answer(&self, out: &impl Print, schedule: &[u8]) -> io::Result<()> {
        let mut lines = [0u8; SETS_ROOM];
        let end = sets_text(schedule, &mut lines);
        out.write_all(part(&lines, 0, end))
    }
}

fn main(rt: HostRuntime) {
    // The input is read to its end; what the first line cannot reach is not kept.
    let mut schedule = [0u8; LONGEST_SCHEDULE];
    run_program(
        &Hillfaults,
        &rt,
        &mut rt.stdin(),
        &rt.stderr(),
        &mut schedule,
    );
}

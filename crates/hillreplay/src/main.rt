// Replays a schedule: reads it from standard input and writes the report to standard output. What goes wrong on the way is said on standard
// error, in one line.

#![tactic(auto)]

use input::program::{Program, run_program};
use limits::LONGEST_SCHEDULE;
use parts::part;
use replay::{REPORT_ROOM, roster_replay};
use std::io;

struct Hillreplay;

impl Program for Hillreplay {
    const NAME: &'static str = "hillreplay";

    const USAGE: &'static [u8] =
        b"usage: hillreplay < SCHEDULE    prints the report of the schedule; hilltrace < SCHEDULE says why a line is refused\n";

    const NONE_TAKEN: &'static [u8] =
        b"hillreplay: no argument is taken; the schedule is read from standard input; hilltrace says why a line is refused\n";

    // Writes the report.
    fn answer(&self, out: &impl Print, schedule: &[u8]) -> io::Result<()> {
        let mut report = [0u8; REPORT_ROOM];
        let end = roster_replay(schedule, &mut report);
        out.write_all(part(&report, 0, end))
    }
}

fn main(rt: HostRuntime) {
    // One byte more than a schedule may have, so that a longer one is seen.
    let mut schedule = [0u8; LONGEST_SCHEDULE + 1];
    run_program(
        &Hillreplay,
        &rt,
        &mut rt.stdin(),
        &rt.stderr(),
        &mut schedule,
    );
}

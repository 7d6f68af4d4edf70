// Shows a schedule of standard input line by line: what each event did, what was broadcast, and the figures of the checks, and why a
// line is refused; then the report, as hillreplay prints it. What goes wrong on the way is said on standard error, in one line.

#![tactic(auto)]

use input::program::{Program, run_program};
use limits::LONGEST_SCHEDULE;
use parts::part;
use replay::{REPORT_ROOM, roster_replay};
use schedule_trace::show;
use std::io;

struct Hilltrace;

impl Program for Hilltrace {
    const NAME: &'static str = "hilltrace";

    const USAGE: &'static [u8] =
        b"usage: hilltrace < SCHEDULE    prints what each line of the schedule did, then the report\n";

    const NONE_TAKEN: &'static [u8] =
        b"hilltrace: no argument is taken; the schedule is read from standard input; --help says more\n";

    // Writes the trace and the report.
    fn answer(&self, out: &impl Print, schedule: &[u8]) -> io::Result<()> {
        show(out, schedule);
        let mut report = [0u8; REPORT_ROOM];
        let end = roster_replay(schedule, &mut report);
        out.write_all(part(&report, 0, end))
    }
}

fn main(rt: HostRuntime) {
    // One byte more than a schedule may have, so that a longer one is seen.
    let mut schedule = [0u8; LONGEST_SCHEDULE + 1];
    run_program(
        &Hilltrace,
        &rt,
        &mut rt.stdin(),
        &rt.stderr(),
        &mut schedule,
    );
}

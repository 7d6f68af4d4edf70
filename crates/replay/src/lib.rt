// One call from a schedule's bytes to the report: the state of every base at the end, or the first line that is turned down. C calls it
// too, by `replay_c`.

#![tactic(auto)]

mod output;

ghost use Rattle.std.specs.Prelude.{◌≡◌, ◌≤◌, length};
ghost use Rattle.schedule.specs.Report.{replay_length, replay_output};

use crate::output::put_report;
use header::read_header;
use limits::refusal::FORM;
use limits::{LONGEST_SCHEDULE, MOST_BASES};
use report::{LINE_ROOM, refused_line};

// Room for any report.
pub const REPORT_ROOM: usize = (MOST_BASES + 1) * LINE_ROOM;

// The report of a schedule at the front of an output, and its length. An output with less room than any report may take is left
// alone, and the length is 0.
pub fn roster_replay(schedule: &[u8], out: &mut [u8]) -> usize
    ensures value { result ≡ replay_length schedule.now out.old }
    ensures out_after { out.new ≡ replay_output schedule.now out.old }
    ensures upper_bound { result ≤ length out.old }
{
    if out.len() < REPORT_ROOM {
        return 0;
    }
    if LONGEST_SCHEDULE < schedule.len() {
        return refused_line(out, 0, FORM, 1);
    }
    put_report(schedule, read_header(schedule), out)
}

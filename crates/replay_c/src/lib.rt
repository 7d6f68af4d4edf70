// The replay as C sees it (include/roster.h): a slice is a pointer and a length there.

#![tactic(auto)]

ghost use Rattle.std.specs.Prelude.{◌≡◌, ◌≤◌, length};
ghost use Rattle.schedule.specs.Report.{replay_length, replay_output};

// The report of a schedule at the front of an output, and its length. An output with less room than any report may take is left
// alone, and the length is 0.
#[unsafe(no_mangle)]
pub extern "C" fn roster_replay(schedule: &[u8], out: &mut [u8]) -> usize
    ensures value { result ≡ replay_length schedule.now out.old }
    ensures out_after { out.new ≡ replay_output schedule.now out.old }
    ensures upper_bound { result ≤ length out.old }
{
    replay::roster_replay(schedule, out)
}

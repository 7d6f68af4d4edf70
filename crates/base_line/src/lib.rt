// The line of a base in a report. Where there is no room for any line, nothing is written and the place stays.

#![tactic(auto)]

ghost use Rattle.std.specs.Prelude.{◌≡◌, ◌+◌, ◌≤◌};
ghost use Rattle.print.specs.Put.{room_end, room_output};
ghost use Rattle.schedule.specs.Report.{base_line, line_room};

use print::{has_room, put_text};
use print_fields::put_field;
use protocol::Base;
use report::LINE_ROOM;
use state_text::put_state;

// `base 1 prime 300 500 leader 500`, `base 3 running` or `base 3 idle`.
pub fn base_line(out: &mut [u8], at: usize, number: u8, base: Base) -> usize
    ensures value { result ≡ room_end line_room out.old at (base_line number base) }
    ensures out_after { out.new ≡ room_output line_room out.old at (base_line number base) }
    ensures upper_bound { result ≤ at + line_room }
{
    if !has_room(out.len(), at, LINE_ROOM) {
        return at;
    }
    let first = put_field(out, at, b"base ", number as u64);
    let second = put_state(out, first, base);
    put_text(out, second, b"\n")
}

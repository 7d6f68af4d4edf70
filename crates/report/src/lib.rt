// The lines of a report but for those of the bases. Where there is no room for any line, nothing is written and the place stays.

#![tactic(auto)]

ghost use Rattle.std.specs.Prelude.{◌≡◌, ◌+◌, ◌≤◌};
ghost use Rattle.print.specs.Put.{room_end, room_output};
ghost use Rattle.schedule.specs.Report.{waiting_line, refused_line, line_room};

use print::{has_room, put_text};
use print_fields::put_field;
use state_text::STATE_ROOM;

// The bytes of `base `, the digits of a base's number, and the line feed.
const BASE_BYTES: usize = 5;

pub const NUMBER_DIGITS: usize = 3;

pub const FEED_BYTES: usize = 1;

// Room for any line: the longest is that of a base.
pub const LINE_ROOM: usize = BASE_BYTES + NUMBER_DIGITS + STATE_ROOM + FEED_BYTES;

// `waiting 2`
pub fn waiting_line(out: &mut [u8], at: usize, count: usize) -> usize
    ensures value { result ≡ room_end line_room out.old at (waiting_line count) }
    ensures out_after { out.new ≡ room_output line_room out.old at (waiting_line count) }
    ensures upper_bound { result ≤ at + line_room }
{
    if !has_room(out.len(), at, LINE_ROOM) {
        return at;
    }
    let end = put_field(out, at, b"waiting ", count as u64);
    put_text(out, end, b"\n")
}

// `refused 13 line 1`
pub fn refused_line(out: &mut [u8], at: usize, number: u8, line: usize) -> usize
    ensures value { result ≡ room_end line_room out.old at (refused_line number line) }
    ensures out_after { out.new ≡ room_output line_room out.old at (refused_line number line) }
    ensures upper_bound { result ≤ at + line_room }
{
    if !has_room(out.len(), at, LINE_ROOM) {
        return at;
    }
    let first = put_field(out, at, b"refused ", number as u64);
    let second = put_field(out, first, b" line ", line as u64);
    put_text(out, second, b"\n")
}

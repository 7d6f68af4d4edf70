// Every set of faulty links of a small net in lines, as `hillfaults` prints them: each by its number, its links as a schedule names them.
// Where there is no room for so many lines, nothing is written.

#![tactic(auto)]

mod put;

ghost use Rattle.std.specs.Prelude.{◌≡◌, ◌≤◌, length};
ghost use Rattle.print.specs.Put.{Put, room_end, room_output};
ghost use Rattle.set_text.specs.Text.{sets_room, net_sets_text, sets_text};

use crate::put::put_sets;
use faulty_sets::{FaultyCount, faulty_count};
use header_forms::net_line;
use limits::refusal::FORM;
use limits::{SMALL_BASES, SMALL_FAULTY};
use lines::bases::Two;
use print_fields::MOST_DIGITS;
use report::{FEED_BYTES, NUMBER_DIGITS, refused_line};

// The bytes of `set `, of `faulty ` and of the space between two bases.
const SET_BYTES: usize = 4;

const FAULTY_BYTES: usize = 7;

const SPACE_BYTES: usize = 1;

const PAIR_ROOM: usize = FAULTY_BYTES + NUMBER_DIGITS + SPACE_BYTES + NUMBER_DIGITS + FEED_BYTES;

const SET_ROOM: usize = SET_BYTES + MOST_DIGITS + FEED_BYTES + PAIR_ROOM * SMALL_FAULTY;

// The links of the largest small net, and its sets, of none, one or two of them.
const SMALL_PAIRS: usize = SMALL_BASES * (SMALL_BASES - 1) / 2;

const SMALL_SETS: usize = 1 + SMALL_PAIRS + SMALL_PAIRS * (SMALL_PAIRS - 1) / 2;

// Room for all lines.
pub const SETS_ROOM: usize = SET_ROOM * SMALL_SETS;

// The lines of a net, or the number by which it is refused.
fn put_net(n: usize, t: usize, out: &mut [u8]) -> usize
    requires { sets_room ≤ length out.old }
    ensures { Put out.old 0 (net_sets_text n t) out.new result }
{
    match faulty_count(n, t) {
        FaultyCount::Sets(count) => put_sets(n, t, count, out),
        FaultyCount::Refused(number) => refused_line(out, 0, number, 1),
    }
}

// The lines of the net that a schedule's first line names, at the output's front; the answer is the place behind them.
pub fn sets_text(schedule: &[u8], out: &mut [u8]) -> usize
    ensures value { result ≡ room_end sets_room out.old 0 (sets_text schedule.now) }
    ensures out_after { out.new ≡ room_output sets_room out.old 0 (sets_text schedule.now) }
{
    if out.len() < SETS_ROOM {
        return 0;
    }
    let Two::Both(n, t, _) = net_line(schedule, 0) else {
        return refused_line(out, 0, FORM, 1);
    };
    put_net(n as usize, t as usize, out)
}

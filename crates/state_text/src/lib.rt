// The state of a base in words, and the list that it has stopped with.

#![tactic(auto)]

ghost use Rattle.std.specs.Prelude.{◌≡◌, ◌+◌, ◌*◌, ◌≤◌, ◌++◌, length, take};
ghost use Rattle.print.specs.Put.{room_end, room_output, Put};
ghost use Rattle.schedule.specs.Report.{identifier_room, final_room, state_room, list_text, final_text, state_text};

use leader_rule::leader_of;
use limits::MOST_BASES;
use lists::least;
use print::{has_room, put_text};
use print_fields::put_field;
use protocol::{Base, IDLE, PRIME, RUNNING};

// The digits of an identifier, and room for any behind a space.
const IDENTIFIER_DIGITS: usize = 10;

const IDENTIFIER_ROOM: usize = 1 + IDENTIFIER_DIGITS;

// The bytes of ` leader `, and of ` secondary`, the longest word of a state.
const LEADER_BYTES: usize = 8;

const SECONDARY_BYTES: usize = 10;

// Room for any state.
pub const STATE_ROOM: usize = SECONDARY_BYTES
    + IDENTIFIER_ROOM * MOST_BASES
    + LEADER_BYTES
    + IDENTIFIER_DIGITS;

// Each identifier of a list, behind a space.
fn put_list(out: &mut [u8], at: usize, ids: &[u32]) -> usize
    requires { at + identifier_room * length ids.now ≤ length out.old }
    ensures put { Put out.old at (list_text ids.now) out.new result }
    ensures upper_bound { result ≤ at + identifier_room * length ids.now }
{
    let mut end = at;
    let mut i: usize = 0;
    while i < ids.len() {
        end = put_field(out, end, b" ", ids[i] as u64);
        i += 1;
    }
    end
}

// A word, a final list behind it, and the leader that the list gives.
fn put_stopped(out: &mut [u8], at: usize, word: &[u8], ids: [u32; MOST_BASES], n: u8) -> usize
    requires { at + length word.now + final_room ≤ length out.old }
    ensures put { Put out.old at (word.now ++ final_text (take n ids)) out.new result }
    ensures upper_bound { result ≤ at + length word.now + final_room }
{
    let count = least(n as usize, MOST_BASES);
    let first = put_text(out, at, word);
    let second = put_list(out, first, &ids[..count]);
    put_field(out, second, b" leader ", leader_of(&ids[..count]) as u64)
}

// ` idle`, ` running` or ` prime 300 500 leader 500`. Where there is no room for any state, nothing is written and the place stays.
pub fn put_state(out: &mut [u8], at: usize, base: Base) -> usize
    ensures value { result ≡ room_end state_room out.old at (state_text base) }
    ensures out_after { out.new ≡ room_output state_room out.old at (state_text base) }
    ensures upper_bound { result ≤ at + state_room }
{
    if !has_room(out.len(), at, STATE_ROOM) {
        return at;
    }
    let state = base.state;
    if state == IDLE {
        return put_text(out, at, b" idle");
    }
    if state == RUNNING {
        return put_text(out, at, b" running");
    }
    let ids = base.final_list;
    if state == PRIME {
        return put_stopped(out, at, b" prime", ids, base.n);
    }
    put_stopped(out, at, b" secondary", ids, base.n)
}

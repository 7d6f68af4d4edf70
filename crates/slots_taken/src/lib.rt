// The slots of airtime that a base has taken since it was idle, as its record tells them.

#![tactic(auto)]

ghost use Rattle.std.specs.Prelude.{◌≡◌, ◌≤◌};
ghost use Rattle.limits.specs.Limits.{list_slots};
ghost use Rattle.slots_taken.specs.Taken.{own_by, vote_by, slots_taken};

use certification::certified_count;
use limits::{frame_bytes, frame_slots};
use protocol::{Base, IDLE, PRIME};

#[derive(Clone, Copy)]
pub struct Slots {
    pub own: usize,
    pub relayed: usize,
}

// Of a list of so many identifiers: n is a byte, so 255 of them at most.
fn list_slots(n: u8) -> usize
    ensures { (result ≡ list_slots n) × (result ≤ 128) }
{
    frame_slots(frame_bytes(n))
}

// The two frames of a start, and a Correct-Final.
fn own_taken(n: u8, state: u8) -> usize
    ensures { result ≡ own_by n state }
{
    if state == IDLE {
        return 0;
    }
    if state < PRIME {
        return 2;
    }
    2 + list_slots(n)
}

// A Verify-Final.
fn vote_taken(n: u8, sent: u8) -> usize
    ensures { (result ≡ vote_by n sent) × (result ≤ 128) }
{
    if sent == 0 {
        return 0;
    }
    list_slots(n)
}

// Own and relayed, of all that the base has broadcast.
pub fn slots_taken(base: Base) -> Slots
    ensures { result ≡ slots_taken base }
{
    let verified = certified_count(base) - 1;
    let relayed = verified + vote_taken(base.n, base.sent);
    Slots {
        own: own_taken(base.n, base.state),
        relayed,
    }
}

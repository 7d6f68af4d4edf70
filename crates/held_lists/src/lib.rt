// Whether a link holds a Verify or a vector message: what looks into the lists that a link keeps.

#![tactic(auto)]

ghost use Rattle.std.specs.Prelude.{◌≡◌, take};
ghost use Rattle.protocol.specs.Links.{holds_verify, holds_vector};

use comparison::same;
use limits::MOST_BASES;
use membership::holds;
use protocol::Link;

pub fn holds_verify(link: Link, g: u32) -> bool
    ensures { result ≡ holds_verify link g }
{
    let count = link.verify_count as usize;
    holds(&link.verifies, 0, count, g)
}

// Whether a vector message of that kind with the first n identifiers of v is held.
pub fn holds_vector(n: u8, kind: u16, link: Link, v: [u32; MOST_BASES]) -> bool
    ensures { result ≡ holds_vector n kind link (take n v) }
{
    if link.held != kind {
        return false;
    }
    same(&link.list, &v, n as usize)
}

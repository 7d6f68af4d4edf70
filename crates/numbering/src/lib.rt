// The links of a base by their numbers, and which of them goes to which base.

#![tactic(auto)]

ghost use Rattle.std.specs.Prelude.{◌-◌, min, ◌≡◌};
ghost use Rattle.limits.specs.Limits.{most_links};
ghost use Rattle.protocol.specs.Numbering.{base_at, link_to};
ghost use Rattle.protocol.specs.Record.{link_at};

use limits::MOST_LINKS;
use lists::least;
use parts::between;
use protocol::{Base, Link};

// The base at the end of link k of base b.
pub fn base_at(b: u8, k: u8) -> usize
    ensures { result ≡ base_at b k }
{
    let far = k as usize;
    if k < b {
        return far;
    }
    far + 1
}

// The link of base b that goes to base a.
pub fn link_to(b: u8, a: u8) -> usize
    ensures { result ≡ link_to b a }
{
    let near = a as usize;
    if a < b {
        return near;
    }
    if near < 1 {
        return 0;
    }
    near - 1
}

// The nearest link for a number that no link has.
pub fn link_at(base: Base, number: usize) -> Link
    ensures { result ≡ link_at base (min (number - 1) (most_links - 1)) }
{
    let at = least(between(0, number), MOST_LINKS - 1);
    base.links[at]
}

// What one link holds: an Announce, how many identifiers, a vector message of which kind.

#![tactic(auto)]

ghost use Rattle.std.specs.Prelude.{◌≡◌};
ghost use Rattle.protocol.specs.Links.{announces, used, full};

use frame::kind::{CORRECT_FINAL, NO_KIND, VERIFY_FINAL};
use protocol::Link;

// The kind of the vector message that a link holds, in the width that the link has for it.
pub const HELD_NOTHING: u16 = NO_KIND as u16;

pub const HELD_CORRECT_FINAL: u16 = CORRECT_FINAL as u16;

pub const HELD_VERIFY_FINAL: u16 = VERIFY_FINAL as u16;

pub fn has_announce(link: Link) -> bool
    ensures { result ≡ announces link }
{
    link.announce != 0
}

// How many identifiers are held, Announce and Verify together.
pub fn held_count(link: Link) -> usize
    ensures { result ≡ used link }
{
    let count = link.verify_count as usize;
    if link.announce == 0 {
        return count;
    }
    count + 1
}

pub fn is_full(n: u8, link: Link) -> bool
    ensures { result ≡ full n link }
{
    let most = n as usize + 1;
    most <= held_count(link)
}

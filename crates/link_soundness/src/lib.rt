// Whether what is held of one link is sound, or nothing.

#![tactic(auto)]

ghost use Rattle.std.specs.Prelude.{◌≡◌};
ghost use Rattle.protocol.specs.Sound.{verifies_sound, held_sound, link_sound, place_sound};

use comparison::zero_behind;
use held::{HELD_CORRECT_FINAL, HELD_NOTHING, HELD_VERIFY_FINAL, held_count};
use list_soundness::list_sound;
use membership::{differ, none_zero};
use protocol::Link;

fn verifies_sound(link: Link) -> bool
    ensures { result ≡ verifies_sound link }
{
    let count = link.verify_count as usize;
    if !none_zero(&link.verifies, count) {
        return false;
    }
    if !differ(&link.verifies, count) {
        return false;
    }
    zero_behind(&link.verifies, count)
}

fn held_sound(n: u8, link: Link) -> bool
    ensures { result ≡ held_sound n link }
{
    let kind = link.held;
    let list = link.list;
    match kind {
        HELD_NOTHING => zero_behind(&list, 0),
        HELD_CORRECT_FINAL => list_sound(n, list),
        HELD_VERIFY_FINAL => list_sound(n, list),
        _ => false,
    }
}

fn link_sound(n: u8, link: Link) -> bool
    ensures { result ≡ link_sound n link }
{
    let most = n as usize + 1;
    if most < held_count(link) {
        return false;
    }
    if !verifies_sound(link) {
        return false;
    }
    held_sound(n, link)
}

// The link at place i: sound, and past the base's n - 1 links empty, which is sound with nothing held.
pub fn place_sound(n: u8, i: usize, link: Link) -> bool
    ensures { result ≡ place_sound n i link }
{
    if !link_sound(n, link) {
        return false;
    }
    let bases = n as usize;
    if 0 < bases {
        if i < bases - 1 {
            return true;
        }
    }
    if held_count(link) != 0 {
        return false;
    }
    link.held == HELD_NOTHING
}

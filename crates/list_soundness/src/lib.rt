// Whether a list in its array is sound: one that a vector message may hold.

#![tactic(auto)]

ghost use Rattle.std.specs.Prelude.{◌≡◌};
ghost use Rattle.protocol.specs.Sound.{list_sound};

use comparison::{ascends, zero_behind};
use limits::MOST_BASES;
use membership::none_zero;

// n identifiers as kinds 3 and 4 demand, and zeros behind.
pub fn list_sound(n: u8, list: [u32; MOST_BASES]) -> bool
    ensures { result ≡ list_sound n list }
{
    let count = n as usize;
    if !none_zero(&list, count) {
        return false;
    }
    if !ascends(&list, count) {
        return false;
    }
    zero_behind(&list, count)
}

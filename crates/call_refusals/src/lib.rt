// Numbers 1 to 3, of what a base is given, and 5 and 6, of the link and the output that a call is given.

#![tactic(auto)]

ghost use Rattle.std.specs.Prelude.{◌≡◌};
ghost use Rattle.protocol.specs.Sound.{setting_refusal};
ghost use Rattle.protocol.specs.Steps.{link_refusal, output_refusal};

use limits::{OUTPUT_ROOM, own_refusal, refusal, size_refusal};
use lists::first_of;

// Numbers 1 to 3, 0 for none.
pub fn setting_refusal(n: usize, t: usize, own: u32) -> u8
    ensures { result ≡ setting_refusal n t own }
{
    first_of(size_refusal(n, t), own_refusal(own))
}

// Number 5, 0 for none.
pub fn link_refusal(n: u8, link: usize) -> u8
    ensures { result ≡ link_refusal n link }
{
    if link < 1 {
        return refusal::LINK;
    }
    if (n as usize) <= link {
        return refusal::LINK;
    }
    0
}

// Number 6, 0 for none.
pub fn output_refusal(room: usize) -> u8
    ensures { result ≡ output_refusal room }
{
    if room < OUTPUT_ROOM {
        return refusal::OUTPUT;
    }
    0
}

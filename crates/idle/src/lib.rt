// The record of a base that has not started.

#![tactic(auto)]

ghost use Rattle.std.specs.Prelude.{◌≡◌};
ghost use Rattle.protocol.specs.Sound.{idle_base};
ghost use Rattle.idle.specs.Made.{made_of};

use call_refusals::setting_refusal;
use limits::{LIST_ROOM, MOST_BASES, MOST_LINKS};
use protocol::{Base, IDLE, Link};

// A record, beside the number by which it is turned down, 0 for none; it is then that of no base.
#[repr(C)]
#[derive(Clone, Copy)]
pub struct Made {
    pub refusal: u8,
    pub base: Base,
}

// The record of a base that has not started: of these, whatever they are, and nothing from any link.
pub fn idle_base(n: u8, t: u8, own: u32) -> Base
    ensures { result ≡ idle_base n t own }
{
    let link = Link {
        announce: 0,
        verifies: [0u32; LIST_ROOM],
        list: [0u32; MOST_BASES],
        verify_count: 0,
        held: 0,
    };
    Base {
        n,
        t,
        state: IDLE,
        sent: 0,
        own,
        final_list: [0u32; MOST_BASES],
        links: [link; MOST_LINKS],
    }
}

// An idle record from n, t and the own identifier: 1 to 3.
pub fn make_idle(n: usize, t: usize, own: u32) -> Made
    ensures { result ≡ made_of n t own }
{
    let refusal = setting_refusal(n, t, own);
    if refusal != 0 {
        return Made {
            refusal,
            base: idle_base(0, 0, 0),
        };
    }
    Made {
        refusal,
        base: idle_base(n as u8, t as u8, own),
    }
}

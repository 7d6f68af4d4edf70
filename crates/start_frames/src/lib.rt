// The two frames of a start.

#![tactic(auto)]

ghost use Rattle.std.specs.Prelude.{◌≡◌, length};
ghost use Rattle.frame.specs.Encoding.{over};
ghost use Rattle.start_frames.specs.Frames.{start_sizes, start_frames};

use frame::kind::{ANNOUNCE, VERIFY};
use two_frames::put_two;

// The lengths of both frames, and their slots together.
#[derive(Clone, Copy)]
pub struct StartSizes {
    pub announce: usize,
    pub verify: usize,
    pub slots: usize,
}

// Announce and Verify of the own identifier, at the front of the output. Nothing is written, lengths 0, where there is no room for both.
pub fn begin(n: u8, own: u32, out: &mut [u8]) -> StartSizes
    ensures { (result ≡ start_sizes (length out.old))
        × (out.new ≡ over (start_frames own (length out.old)) out.old) }
{
    let ids = [own];
    let two = put_two(ANNOUNCE, VERIFY, n, &ids, out);
    let slots = two.front.slots + two.next.slots;
    StartSizes {
        announce: two.front.length,
        verify: two.next.length,
        slots,
    }
}

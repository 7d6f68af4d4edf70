// Two frames of the same identifiers, one after the other, at the front of an output. What stands past them in the output stays as it was.

#![tactic(auto)]

ghost use Rattle.std.specs.Prelude.{◌≡◌, length};
ghost use Rattle.two_frames.specs.TwoFrames.{two_fit, two_sizes, two_output};

use frame::kind::length_of;
use frame::size::{FrameSize, frame_size};
use frame_room::frame_fits;
use framing::put;

// The sizes of two frames, one after the other.
#[derive(Clone, Copy)]
pub struct TwoSizes {
    pub front: FrameSize,
    pub next: FrameSize,
}

fn two_fit(kind: u8, next: u8, n: u8, count: usize, room: usize) -> bool
    ensures { result ≡ two_fit n kind next count room }
{
    if !frame_fits(kind, n, count, room) {
        return false;
    }
    frame_fits(next, n, count, room - length_of(kind, n))
}

// Two frames of the same identifiers, where both are as `put` asks and the output has the room for both; the second goes into the rest of
// the output.
pub fn put_two(kind: u8, next: u8, n: u8, ids: &[u32], out: &mut [u8]) -> TwoSizes
    ensures { (result ≡ two_sizes n kind next (length ids.now) (length out.old))
        × (out.new ≡ two_output n kind next ids.now out.old) }
{
    if !two_fit(kind, next, n, ids.len(), out.len()) {
        let none = frame_size(0);
        return TwoSizes {
            front: none,
            next: none,
        };
    }
    let front = put(kind, n, ids, out);
    let behind = front.length;
    let back = put(next, n, ids, &mut out[behind..]);
    TwoSizes { front, next: back }
}

// One frame at the front of an output. What stands past it in the output stays as it was.

#![tactic(auto)]

mod bytes;

ghost use Rattle.std.specs.Prelude.{◌≡◌, ◌≤◌, ◌<◌, length};
ghost use Rattle.limits.specs.Limits.{frame_bytes};
ghost use Rattle.frame.specs.Slots.{size_of};
ghost use Rattle.frame.specs.Encoding.{frame_of, over};
ghost use Rattle.framing.specs.Framing.{put_length, put_output};

use crate::bytes::{put_four, put_identifier};
use frame::kind::length_of;
use frame::size::{FrameSize, frame_size};
use frame_room::frame_fits;
use limits::{IDENTIFIER_BYTES, TRAILER_BYTES};

// A frame of so many bytes, which is its back distance too.
fn put_frame(kind: u8, size: usize, ids: &[u32], out: &mut [u8])
    requires { (length ids.now < 256) × ((size ≡ frame_bytes (length ids.now)) × (size ≤ length out.old)) }
    ensures { out.new ≡ over (frame_of kind ids.now) out.old }
{
    let count = ids.len();
    let mut i: usize = 0;
    while i < count {
        put_identifier(out, IDENTIFIER_BYTES * i, ids[i]);
        i += 1;
    }
    put_four(
        out,
        size - TRAILER_BYTES,
        kind,
        count as u8,
        (size / 256 % 256) as u8,
        (size % 256) as u8,
    );
}

// The frame of a kind and its identifiers in a net of n bases; the answer is its size. Nothing is written, length 0, for a kind that
// there is not, for a list of another count than the kind holds, and where the output has no room for it.
pub fn put(kind: u8, n: u8, ids: &[u32], out: &mut [u8]) -> FrameSize
    ensures { (result ≡ size_of (put_length n kind (length ids.now) (length out.old)))
        × (out.new ≡ put_output n kind ids.now out.old) }
{
    if !frame_fits(kind, n, ids.len(), out.len()) {
        return frame_size(0);
    }
    let size = length_of(kind, n);
    put_frame(kind, size, ids, out);
    frame_size(size)
}

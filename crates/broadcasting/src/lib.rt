// The frames that a call broadcasts, one behind another at the front of an output, and the answer with their lengths and slots.

#![tactic(auto)]

ghost use Rattle.std.specs.Prelude.{◌≡◌, ◌++◌, length};
ghost use Rattle.frame.specs.Slots.{size_of};
ghost use Rattle.frame.specs.Encoding.{over};
ghost use Rattle.broadcasting.specs.Broadcasting.{frame_in, last_frame, accepted_with};

use frame::kind::{CORRECT_FINAL, Shape, shape_of};
use frame::size::{FrameSize, frame_size};
use framing::put;
use limits::MOST_BASES;
use protocol::Outcome;

// The frame of a kind and as many identifiers of an array as the kind holds. Nothing is written, length 0, for a kind that there is
// not, for more identifiers than the array has, and where the output has no room.
fn say(kind: u8, n: u8, ids: [u32; MOST_BASES], out: &mut [u8]) -> FrameSize
    ensures { (result ≡ size_of (length (frame_in n kind ids (length out.old))))
        × (out.new ≡ over (frame_in n kind ids (length out.old)) out.old) }
{
    let Shape::Known { count, length: _ } = shape_of(kind, n) else {
        return frame_size(0);
    };
    if MOST_BASES < count {
        return frame_size(0);
    }
    put(kind, n, &ids[..count], out)
}

// The frame before the check is relayed, the Correct-Final behind it is the base's own.
fn accepted(relayed: FrameSize, last: FrameSize) -> Outcome
    ensures { result ≡ accepted_with relayed last }
{
    if relayed.length == 0 {
        return Outcome::Accepted {
            first: last.length,
            second: 0,
            third: 0,
            own: last.slots,
            relayed: relayed.slots,
        };
    }
    Outcome::Accepted {
        first: relayed.length,
        second: last.length,
        third: 0,
        own: last.slots,
        relayed: relayed.slots,
    }
}

// What a base broadcasts that has accepted a message: a frame of the first kind, none for zero, of the message's identifiers, and a
// Correct-Final of its final list where it stops.
pub fn put_broadcasts(
    n: u8,
    first: u8,
    ids: [u32; MOST_BASES],
    stops: bool,
    list: [u32; MOST_BASES],
    out: &mut [u8],
) -> Outcome
    ensures { (result ≡ accepted_with (size_of (length (frame_in n first ids (length out.old))))
        (size_of (length (last_frame n first ids stops list (length out.old)))))
        × (out.new ≡ over
        (frame_in n first ids (length out.old) ++ last_frame n first ids stops list (length out.old))
        out.old) }
{
    let front = say(first, n, ids, out);
    if !stops {
        return accepted(front, frame_size(0));
    }
    let behind = front.length;
    let back = say(CORRECT_FINAL, n, list, &mut out[behind..]);
    accepted(front, back)
}

// Frames that a call wrote join the base's broadcasts.

#![tactic(auto)]

ghost use Rattle.std.specs.Prelude.{◌≡◌, ◌+◌, ◌≤◌, length, take, drop};
ghost use Rattle.limits.specs.Limits.{longest_frame};
ghost use Rattle.node.specs.Node.{stored_frame, with_base};
ghost use Rattle.keeping.specs.Keeping.{three_fit, kept_three};

use limits::LONGEST_FRAME;
use node::{Frame, MOST_BROADCASTS, Node};
use protocol::Base;

// The len bytes of out from a place on, as a frame.
fn frame_of(out: &[u8], from: usize, len: usize) -> Frame
    requires { (len ≤ longest_frame) × (from + len ≤ length out.now) }
    ensures { result ≡ stored_frame (take len (drop from out.now)) }
{
    let mut bytes = [0u8; LONGEST_FRAME];
    let mut i: usize = 0;
    while i < len {
        bytes[i] = out[from + i];
        i += 1;
    }
    Frame { len, bytes }
}

// Whether each is no longer than a frame may be, and all have room, one behind the other.
fn three_fit(room: usize, first: usize, second: usize, third: usize) -> bool
    ensures { result ≡ three_fit room first second third }
{
    if LONGEST_FRAME < first {
        return false;
    }
    if LONGEST_FRAME < second {
        return false;
    }
    if LONGEST_FRAME < third {
        return false;
    }
    first + second + third <= room
}

// The record after a call, and up to three frames from the output that the call wrote, one behind the other. A length of zero is no frame;
// lengths that do not fit are none.
pub fn keep_three(
    node: Node,
    base: Base,
    out: &[u8],
    first: usize,
    second: usize,
    third: usize,
) -> Node
    ensures { result ≡ kept_three (with_base node base) out.now first second third }
{
    let lengths = [first, second, third];
    let mut after = node;
    after.base = base;
    if !three_fit(out.len(), first, second, third) {
        return after;
    }
    let mut from: usize = 0;
    let mut i: usize = 0;
    while i < 3 {
        let len = lengths[i];
        let count = after.count;
        if len != 0 {
            if count < MOST_BROADCASTS {
                let frame = frame_of(out, from, len);
                after.frames[count] = frame;
                after.count = count + 1;
            }
        }
        from += len;
        i += 1;
    }
    after
}

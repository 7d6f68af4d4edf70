// A base's broadcasts, numbered from 1 in the order written.
ghost use Rattle.std.specs.Prelude.{◌≡◌, ◌≤◌, length};
ghost use Rattle.node.specs.Node.{most_broadcasts, log_of, frame_at};

use crate::{Frame, MOST_BROADCASTS, Node};
use limits::LONGEST_FRAME;

// How many there are.
pub fn broadcasts(node: Node) -> usize
    ensures { (result ≡ length (log_of node)) × (result ≤ most_broadcasts) }
{
    if MOST_BROADCASTS < node.count {
        return MOST_BROADCASTS;
    }
    node.count
}

// The k-th, and an empty frame for one that was not broadcast.
pub fn frame_at(node: Node, k: usize) -> Frame
    ensures { result ≡ frame_at node k }
{
    let mut i: usize = 0;
    if 0 < k {
        i = k - 1;
    }
    if i < broadcasts(node) {
        return node.frames[i];
    }
    Frame {
        len: 0,
        bytes: [0u8; LONGEST_FRAME],
    }
}

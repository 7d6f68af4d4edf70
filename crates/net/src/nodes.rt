// The bases of a net by their numbers, from 1.
ghost use Rattle.std.specs.Prelude.{◌≡◌};
ghost use Rattle.net.specs.Abstraction.{empty_node, node_at};
ghost use Rattle.net.specs.Header.{idle_node};

use crate::StoredNet;
use idle::idle_base;
use limits::{LONGEST_FRAME, MOST_BASES};
use node::{Frame, MARKS, MOST_BROADCASTS, Node};

// A base with no identifier yet, which is zero, idle, with no broadcast and no carry.
pub(crate) fn empty_node(n: u8, t: u8) -> Node
    ensures { result ≡ empty_node n t }
{
    let base = idle_base(n, t, 0);
    let frame = Frame {
        len: 0,
        bytes: [0u8; LONGEST_FRAME],
    };
    Node {
        base,
        count: 0,
        frames: [frame; MOST_BROADCASTS],
        heard: [0u8; MARKS],
    }
}

// A base that has the identifier v, idle, with no broadcast and no carry.
pub(crate) fn idle_node(n: u8, t: u8, v: u32) -> Node
    ensures { result ≡ idle_node n t v }
{
    let mut node = empty_node(n, t);
    let base = idle_base(n, t, v);
    node.base = base;
    node
}

// Base b; for a number that no base has, one that is as at the beginning.
pub fn node_at(net: StoredNet, b: u8) -> Node
    ensures { result ≡ node_at net b }
{
    let place = b as usize;
    if place < 1 {
        return empty_node(net.n, net.t);
    }
    if MOST_BASES < place {
        return empty_node(net.n, net.t);
    }
    net.nodes[place - 1]
}

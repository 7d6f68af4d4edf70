// The mark of a broadcast that has been carried to a base.

#![tactic(auto)]

ghost use Rattle.std.specs.Prelude.{◌≡◌};
ghost use Rattle.node.specs.Node.{marked};

use limits::MOST_BASES;
use node::{MOST_BROADCASTS, Node};

// a's k-th broadcast has been carried to this base.
pub fn mark(node: Node, a: u8, k: usize) -> Node
    ensures { result ≡ marked node a k }
{
    let from = a as usize;
    if from < 1 {
        return node;
    }
    if MOST_BASES < from {
        return node;
    }
    if k < 1 {
        return node;
    }
    if MOST_BROADCASTS < k {
        return node;
    }
    let mut after = node;
    after.heard[(from - 1) * MOST_BROADCASTS + (k - 1)] = 1;
    after
}

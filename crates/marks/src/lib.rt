// Which broadcasts of the others were carried to a base.

#![tactic(auto)]

ghost use Rattle.std.specs.Prelude.{◌≡◌, suc, not};
ghost use Rattle.counting.specs.Sums.{bit, sum};
ghost use Rattle.node.specs.Node.{heard_by};

use limits::MOST_BASES;
use node::{MOST_BROADCASTS, Node};

// Whether a's k-th broadcast was carried to this base.
pub fn heard_by(node: Node, a: u8, k: usize) -> bool
    ensures { result ≡ heard_by node a k }
{
    let from = a as usize;
    if from < 1 {
        return false;
    }
    if MOST_BASES < from {
        return false;
    }
    if k < 1 {
        return false;
    }
    if MOST_BROADCASTS < k {
        return false;
    }
    node.heard[(from - 1) * MOST_BROADCASTS + (k - 1)] != 0
}

// How many of a's first count broadcasts were not carried to this base.
pub fn unheard(node: Node, a: u8, count: usize) -> usize
    ensures { result ≡ sum count (λ i. bit (not (heard_by node a (suc i)))) }
{
    let mut total: usize = 0;
    let mut i: usize = 0;
    while i < count {
        if !heard_by(node, a, i + 1) {
            total += 1;
        }
        i += 1;
    }
    total
}

// The links that hold a list as Correct-Final.

#![tactic(auto)]

ghost use Rattle.std.specs.Prelude.{◌≤◌, ◌≡◌, take};
ghost use Rattle.limits.specs.Limits.{most_links};
ghost use Rattle.protocol.specs.Record.{correct_count};

use counted_links::links_in;
use counting::one;
use held::HELD_CORRECT_FINAL;
use held_lists::holds_vector;
use limits::MOST_BASES;
use protocol::Base;

// The number of links that hold Correct-Final of the first n identifiers of v.
pub fn correct_count(base: Base, v: [u32; MOST_BASES]) -> usize
    ensures { (result ≡ correct_count base (take base.n v)) × (result ≤ most_links) }
{
    let k = links_in(base.n);
    let mut count: usize = 0;
    let mut i: usize = 0;
    while i < k {
        let link = base.links[i];
        count += one(holds_vector(base.n, HELD_CORRECT_FINAL, link, v));
        i += 1;
    }
    count
}

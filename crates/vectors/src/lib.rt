// The tally of a list.

#![tactic(auto)]

ghost use Rattle.std.specs.Prelude.{◌≤◌, ◌≡◌, take};
ghost use Rattle.limits.specs.Limits.{most_links};
ghost use Rattle.protocol.specs.Record.{list_tally};

use counted_links::links_in;
use counting::one;
use held::{HELD_CORRECT_FINAL, HELD_VERIFY_FINAL};
use held_lists::holds_vector;
use limits::MOST_BASES;
use protocol::Base;

// The number of links that hold a vector message with the first n identifiers of v: a link holds one, of kind 3 or 4.
pub fn list_tally(base: Base, v: [u32; MOST_BASES]) -> usize
    ensures { (result ≡ list_tally base (take base.n v)) × (result ≤ most_links) }
{
    let k = links_in(base.n);
    let mut count: usize = 0;
    let mut i: usize = 0;
    while i < k {
        let link = base.links[i];
        let correct = one(holds_vector(base.n, HELD_CORRECT_FINAL, link, v));
        let verify = one(holds_vector(base.n, HELD_VERIFY_FINAL, link, v));
        count += correct + verify;
        i += 1;
    }
    count
}

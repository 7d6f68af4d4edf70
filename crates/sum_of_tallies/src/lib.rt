// The sum of the certified identifiers' tallies.

#![tactic(auto)]

ghost use Rattle.std.specs.Prelude.{◌*◌, ◌≤◌, ◌≡◌, take};
ghost use Rattle.limits.specs.Limits.{most_bases, most_links};
ghost use Rattle.lists.specs.Lists.{sum_over};
ghost use Rattle.counting.specs.Sums.{bit};
ghost use Rattle.counting.specs.Sums as Sums;
ghost use Rattle.protocol.specs.Links.{holds_verify};
ghost use Rattle.protocol.specs.Record.{link_at, link_count, tally_sum};

use certified::certified_ids;
use counted_links::links_in;
use counting::one;
use limits::MOST_BASES;
use membership::holds;
use protocol::{Base, Link};

// How many of the first count identifiers a link holds as Verify.
fn verified_of(link: Link, ids: [u32; MOST_BASES], count: usize) -> usize
    requires { count ≤ most_bases }
    ensures { (result ≡ sum_over (take count ids) (λ g. bit (holds_verify link g))) × (result ≤ count) }
{
    let held = link.verify_count as usize;
    let mut sum: usize = 0;
    let mut j = count;
    while 0 < j {
        j -= 1;
        sum += one(holds(&link.verifies, 0, held, ids[j]));
    }
    sum
}

// How many of the first count identifiers each link holds as Verify, all links together. Each link is read once.
fn verified_sum(base: Base, ids: [u32; MOST_BASES], count: usize) -> usize
    requires { count ≤ most_bases }
    ensures { (result ≡ Sums.sum (link_count base) (λ i. sum_over (take count ids) (λ g. bit (holds_verify (link_at base i) g))))
        × (result ≤ most_bases * most_links) }
{
    let k = links_in(base.n);
    let mut sum: usize = 0;
    let mut i: usize = 0;
    while i < k {
        let link = base.links[i];
        sum += verified_of(link, ids, count);
        i += 1;
    }
    sum
}

// Each certified identifier counts once for being certified, and once for each link that holds it as Verify.
pub fn tally_sum(base: Base) -> usize
    ensures { (result ≡ tally_sum base) × (result ≤ most_bases * most_bases) }
{
    let list = certified_ids(base);
    let ids = list.ids;
    let count = list.count;
    count + verified_sum(base, ids, count)
}

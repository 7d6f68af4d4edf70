// The tally of an identifier.

#![tactic(auto)]

ghost use Rattle.std.specs.Prelude.{◌≤◌, ◌≡◌};
ghost use Rattle.limits.specs.Limits.{most_bases, most_links};
ghost use Rattle.protocol.specs.Links.{holds_verify};
ghost use Rattle.protocol.specs.Record.{links, tally};

use certification::certifies;
use counted_links::links_in;
use counting::one;
use held_lists::holds_verify;
use protocol::Base;

// The number of links that hold Verify g.
fn verify_links(base: Base, g: u32) -> usize
    ensures { (result ≡ links base (λ l. holds_verify l g)) × (result ≤ most_links) }
{
    let k = links_in(base.n);
    let mut count: usize = 0;
    let mut i: usize = 0;
    while i < k {
        let link = base.links[i];
        count += one(holds_verify(link, g));
        i += 1;
    }
    count
}

pub fn tally(base: Base, g: u32) -> usize
    ensures { (result ≡ tally base g) × (result ≤ most_bases) }
{
    verify_links(base, g) + one(certifies(base, g))
}

// Suspect pairs of certified identifiers.

#![tactic(auto)]

ghost use Rattle.std.specs.Prelude.{◌≡◌};
ghost use Rattle.protocol.specs.Record.{suspect_pair, suspect_own, suspects};

use counted_links::links_in;
use counting::one;
use held::has_announce;
use held_lists::holds_verify;
use membership::holds;
use protocol::{Base, Link};

fn suspect_pair(a: Link, b: Link) -> bool
    ensures { result ≡ suspect_pair a b }
{
    let g = a.announce;
    let h = b.announce;
    if g == 0 {
        return false;
    }
    if h == 0 {
        return false;
    }
    if !holds(&a.verifies, 0, a.verify_count as usize, h) {
        return true;
    }
    !holds(&b.verifies, 0, b.verify_count as usize, g)
}

fn suspect_own(own: u32, link: Link) -> bool
    ensures { result ≡ suspect_own own link }
{
    if has_announce(link) {
        return !holds_verify(link, own);
    }
    false
}

// Each link is read once for its pair with the own identifier, of which only the other's link is looked at, and for its pairs with
// the links before it.
pub fn suspect_count(base: Base) -> usize
    ensures { result ≡ suspects base }
{
    let k = links_in(base.n);
    let own = base.own;
    let mut count: usize = 0;
    let mut i: usize = 0;
    while i < k {
        let link = base.links[i];
        count += one(suspect_own(own, link));
        let mut j: usize = 0;
        while j < i {
            let other = base.links[j];
            count += one(suspect_pair(link, other));
            j += 1;
        }
        i += 1;
    }
    count
}

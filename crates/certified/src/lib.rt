// The certified identifiers: the own one and every accepted Announce.

#![tactic(auto)]

ghost use Rattle.std.specs.Prelude.{◌≡◌};
ghost use Rattle.protocol.specs.Record.{certified};
ghost use Rattle.certified.specs.Listed.{list_of};

use counted_links::links_in;
use held::has_announce;
use limits::MOST_BASES;
use protocol::Base;

// A list in its array.
#[derive(Clone, Copy)]
pub struct List {
    pub ids: [u32; MOST_BASES],
    pub count: usize,
}

// The certified identifiers, listed: the own one, then the announced ones from the last link to the first.
pub fn certified_ids(base: Base) -> List
    ensures { result ≡ list_of (certified base) }
{
    let mut ids = [0u32; MOST_BASES];
    ids[0] = base.own;
    let mut count: usize = 1;
    let mut i = links_in(base.n);
    while 0 < i {
        i -= 1;
        let link = base.links[i];
        if has_announce(link) {
            ids[count] = link.announce;
            count += 1;
        }
    }
    List { ids, count }
}

// The Verifies that a short sum lacks where no pair is suspect: every link then holds those of all the others, and may lack that of the
// identifier which it has announced itself.
use crate::pairs::{Lacking, NAMED, lacks, more, separator};
use counted_links::links_in;
use numbering::link_at;
use parts::plus;
use protocol::Base;

pub fn missing_verifies(out: &impl Print, b: u8, base: Base) {
    let _ = print!(out; "  missing: ");
    let mut named: usize = 0;
    for i in 1..=links_in(base.n) {
        let link = link_at(base, i);
        if lacks(link, link.announce) {
            if named < NAMED {
                let _ = print!(out;
                    "{}{}",
                    separator(named),
                    Lacking {
                        b,
                        i,
                        g: link.announce
                    }
                );
            }
            named = plus(named, 1);
        }
    }
    more(out, named)
}

// The suspect pairs by their identifiers, and what makes each suspect: a link that lacks a Verify of the other.
use counted_links::links_in;
use held::has_announce;
use held_lists::holds_verify;
use limits::{MOST_FAULTY, MOST_LINKS};
use numbering::{base_at, link_at};
use parts::plus;
use protocol::{Base, Link};
use std::fmt;

// Pairs that are named: as many as t can be, and the one that is too many.
pub(crate) const NAMED: usize = MOST_FAULTY + 1;

// Whether a link that has an Announce lacks a Verify.
pub(crate) fn lacks(link: Link, g: u32) -> bool {
    has_announce(link) && !holds_verify(link, g)
}

// `link 1 from base 2 lacks Verify 120`, of link i of base b.
#[derive(Clone, Copy)]
pub(crate) struct Lacking {
    pub(crate) b: u8,
    pub(crate) i: usize,
    pub(crate) g: u32,
}

impl fmt::Display for Lacking {
    fn fmt<W: fmt::Write>(&self, f: &mut fmt::Formatter<W>) -> fmt::Result {
        write!(
            f,
            "link {} from base {} lacks Verify {}",
            self.i,
            far_end(self.b, self.i),
            self.g
        )
    }
}

// The base at the end of that link of base b.
fn far_end(b: u8, number: usize) -> usize {
    if MOST_LINKS < number {
        return 0;
    }
    base_at(b, number as u8)
}

// Before what is named behind so many others.
pub(crate) fn separator(named: usize) -> &'static str {
    if named == 0 { "" } else { "; " }
}

// Two identifiers that are a suspect pair, and what makes it one.
#[derive(Clone, Copy)]
struct SuspectPair {
    g: u32,
    h: u32,
    first: Option<Lacking>,
    second: Option<Lacking>,
}

impl fmt::Display for SuspectPair {
    fn fmt<W: fmt::Write>(&self, f: &mut fmt::Formatter<W>) -> fmt::Result {
        write!(f, "{} and {} (", self.g, self.h)?;
        if let Some(first) = self.first {
            write!(f, "{first}")?;
        }
        if self.first.is_some() && self.second.is_some() {
            write!(f, ", ")?;
        }
        if let Some(second) = self.second {
            write!(f, "{second}")?;
        }
        write!(f, ")")
    }
}

// The own identifier and that of link i: only the other's link is looked at.
fn own_pair(b: u8, base: Base, i: usize) -> Option<SuspectPair> {
    let link = link_at(base, i);
    if !lacks(link, base.own) {
        return None;
    }
    let first = Some(Lacking { b, i, g: base.own });
    Some(SuspectPair {
        g: base.own,
        h: link.announce,
        first,
        second: None,
    })
}

// The identifiers of links i and j.
fn link_pair(b: u8, base: Base, i: usize, j: usize) -> Option<SuspectPair> {
    let one = link_at(base, i);
    let other = link_at(base, j);
    let (g, h) = (one.announce, other.announce);
    let first = lacks(one, h).then_some(Lacking { b, i, g: h });
    let second = lacks(other, g).then_some(Lacking { b, i: j, g });
    if !has_announce(one) || !has_announce(other) || first.or(second).is_none() {
        return None;
    }
    Some(SuspectPair {
        g,
        h,
        first,
        second,
    })
}

// The pairs of link i with the own identifier, as j = 0, and with the links before it. Answers how many pairs there are by now.
fn pairs_of(out: &impl Print, b: u8, base: Base, i: usize, before: usize) -> usize {
    let mut named = before;
    for j in 0..i {
        let pair = if j == 0 {
            own_pair(b, base, i)
        } else {
            link_pair(b, base, j, i)
        };
        if let Some(pair) = pair {
            if named < NAMED {
                let _ = print!(out; "{}{pair}", separator(named));
            }
            named = plus(named, 1);
        }
    }
    named
}

// How many there are besides those that are named.
pub(crate) fn more(out: &impl Print, named: usize) {
    if NAMED < named {
        let _ = print!(out; "; and {} more", named - NAMED);
    }
    let _ = println!(out);
}

// Those of a base that has some.
pub fn suspect_pairs(out: &impl Print, b: u8, base: Base) {
    let _ = print!(out; "  suspect: ");
    let mut named: usize = 0;
    for i in 1..=links_in(base.n) {
        named = pairs_of(out, b, base, i, named);
    }
    more(out, named)
}

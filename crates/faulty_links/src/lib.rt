// The links that are named faulty.

#![tactic(auto)]

ghost use Rattle.std.specs.Prelude.{◌≡◌, eqb};
ghost use Rattle.lists.specs.Choice.{and};
ghost use Rattle.protocol.specs.Net.{joins, good};
ghost use Rattle.faulty_links.specs.Faulty.{pair_of, pairs_of, no_faulty};

use limits::MOST_FAULTY;
use lists::least;

// A link by its two bases.
#[derive(Clone, Copy)]
pub struct FaultyLink {
    pub one: u8,
    pub other: u8,
}

// The faulty links, in the order in which they were named.
#[derive(Clone, Copy)]
pub struct Faulty {
    pub count: usize,
    pub pairs: [FaultyLink; MOST_FAULTY],
}

fn is_from(pair: FaultyLink, a: u8, b: u8) -> bool
    ensures { result ≡ and (eqb pair.one a) (eqb pair.other b) }
{
    if pair.one != a {
        return false;
    }
    pair.other == b
}

fn joins_bases(pair: FaultyLink, a: u8, b: u8) -> bool
    ensures { result ≡ joins (pair_of pair) a b }
{
    if is_from(pair, a, b) {
        return true;
    }
    is_from(pair, b, a)
}

// Whether the link between a and b is good.
pub fn is_good(faulty: Faulty, a: u8, b: u8) -> bool
    ensures { result ≡ good (pairs_of faulty) a b }
{
    let count = least(faulty.count, MOST_FAULTY);
    let mut i: usize = 0;
    while i < count {
        if joins_bases(faulty.pairs[i], a, b) {
            return false;
        }
        i += 1;
    }
    true
}

// No link is named.
pub fn no_faulty() -> Faulty
    ensures { result ≡ no_faulty }
{
    let pair = FaultyLink { one: 0, other: 0 };
    Faulty {
        count: 0,
        pairs: [pair; MOST_FAULTY],
    }
}

// A link is named faulty, or turned down.

#![tactic(auto)]

ghost use Rattle.std.specs.Prelude.{◌≡◌};
ghost use Rattle.schedule.specs.Header.{faulty_refusal};
ghost use Rattle.faulty_links.specs.Faulty.{pairs_of, marked_faulty};
ghost use Rattle.faulty_naming.specs.Naming.{faulty_named};

use faulty_links::{Faulty, FaultyLink, is_good};
use limits::MOST_FAULTY;
use limits::refusal::{FAULTY_LINKS, FORM};
use lists::least;

// The faulty links once one is named, beside 13 or 15 where that turned the link down, else 0.
#[derive(Clone, Copy)]
pub struct FaultyNamed {
    pub refusal: u8,
    pub faulty: Faulty,
}

// Number 15, or 0 where one link more may be named.
fn faulty_refusal(faulty: Faulty, t: u8) -> u8
    ensures { result ≡ faulty_refusal t (pairs_of faulty) }
{
    if (t as usize) <= least(faulty.count, MOST_FAULTY) {
        return FAULTY_LINKS;
    }
    0
}

// The link between a and b is named besides, while there is room.
fn marked_faulty(faulty: Faulty, a: u8, b: u8) -> Faulty
    ensures { result ≡ marked_faulty faulty a b }
{
    let count = faulty.count;
    if MOST_FAULTY <= count {
        return faulty;
    }
    let pair = FaultyLink { one: a, other: b };
    let mut after = faulty;
    after.pairs[count] = pair;
    after.count = count + 1;
    after
}

// The link between a and b is faulty, if one more may be.
pub fn name_faulty(faulty: Faulty, t: u8, a: u8, b: u8) -> FaultyNamed
    ensures { result ≡ faulty_named t faulty a b }
{
    if is_good(faulty, a, b) {
        let refusal = faulty_refusal(faulty, t);
        if refusal != 0 {
            return FaultyNamed { refusal, faulty };
        }
        return FaultyNamed {
            refusal: 0,
            faulty: marked_faulty(faulty, a, b),
        };
    }
    FaultyNamed {
        refusal: FORM,
        faulty,
    }
}

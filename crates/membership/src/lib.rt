// Which identifiers stand among the first count of a slice; where the slice is shorter, among all that it has.

#![tactic(auto)]

ghost use Rattle.std.specs.Prelude.{◌≡◌, take, drop};
ghost use Rattle.lists.specs.Lists.{nonzero, member, distinct};

use lists::least;

// Whether one of the identifiers at the places from .. count - 1 is x.
pub fn holds(ids: &[u32], from: usize, count: usize, x: u32) -> bool
    ensures { result ≡ member x (drop from (take count ids.now)) }
{
    let end = least(count, ids.len());
    let mut i = from;
    while i < end {
        if ids[i] == x {
            return true;
        }
        i += 1;
    }
    false
}

pub fn none_zero(ids: &[u32], count: usize) -> bool
    ensures { result ≡ nonzero (take count ids.now) }
{
    !holds(ids, 0, count, 0)
}

// Whether no identifier stands there twice.
pub fn differ(ids: &[u32], count: usize) -> bool
    ensures { result ≡ distinct (take count ids.now) }
{
    let end = least(count, ids.len());
    let mut i: usize = 0;
    while i < end {
        let x = ids[i];
        if holds(ids, i + 1, count, x) {
            return false;
        }
        i += 1;
    }
    true
}

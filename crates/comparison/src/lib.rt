// Identifiers of a slice compared with each other, with zero, and with those of another slice: the first count, or those behind them.
// Where the slice is shorter, all that it has.

#![tactic(auto)]

ghost use Rattle.std.specs.Prelude.{◌≡◌, take, drop};
ghost use Rattle.lists.specs.Lists.{ascending, zeros, same_list};

use lists::least;

pub fn ascends(ids: &[u32], count: usize) -> bool
    ensures { result ≡ ascending (take count ids.now) }
{
    let end = least(count, ids.len());
    let mut i: usize = 0;
    while i + 1 < end {
        if ids[i + 1] <= ids[i] {
            return false;
        }
        i += 1;
    }
    true
}

pub fn zero_behind(ids: &[u32], count: usize) -> bool
    ensures { result ≡ zeros (drop count ids.now) }
{
    let mut i = count;
    while i < ids.len() {
        if ids[i] != 0 {
            return false;
        }
        i += 1;
    }
    true
}

// Whether the first count identifiers of two slices are the same.
pub fn same(a: &[u32], b: &[u32], count: usize) -> bool
    ensures { result ≡ same_list (take count a.now) (take count b.now) }
{
    let end = least(count, a.len());
    if least(count, b.len()) != end {
        return false;
    }
    let mut i: usize = 0;
    while i < end {
        if a[i] != b[i] {
            return false;
        }
        i += 1;
    }
    true
}

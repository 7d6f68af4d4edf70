// How many sets there are of so many pairs.
ghost use Rattle.std.specs.Prelude.{◌≡◌, suc, ◌+◌, ◌≤◌, ◌<◌};
ghost use Rattle.limits.specs.Limits.{small_bases};
ghost use Rattle.link_sets.specs.Count.{pair_count, choices, choices_below};
ghost use Rattle.faulty_sets.specs.Small.{small_faulty, small_pairs};

// The pairs of n bases.
pub(crate) fn pair_count(n: usize) -> usize
    requires { (1 ≤ n) × (n ≤ small_bases) }
    ensures { result ≡ pair_count n }
{
    n * (n - 1) / 2
}

// The sets of k of m pairs.
pub(crate) fn choices(m: usize, k: usize) -> usize
    requires { m ≤ small_pairs }
    ensures { result ≡ choices m k }
{
    if m < k {
        return 0;
    }
    let mut sets: usize = 1;
    let mut size: usize = 0;
    while size < k {
        sets = sets * (m - size) / (size + 1);
        size += 1;
    }
    sets
}

// The sets of fewer than k of m pairs.
pub(crate) fn choices_below(m: usize, k: usize) -> usize
    requires { (m ≤ small_pairs) × (k ≤ suc small_faulty) }
    ensures { result ≡ choices_below m k }
{
    let mut sets: usize = 0;
    let mut size: usize = 0;
    while size < k {
        sets += choices(m, size);
        size += 1;
    }
    sets
}

// The set of a number by its size: how many pairs it has, and its number among the sets of so many.
#[derive(Clone, Copy)]
pub(crate) struct OfSize {
    pub size: usize,
    pub number: usize,
}

// The sets of fewer pairs stand before it, one size after another.
pub(crate) fn of_size(m: usize, t: usize, number: usize) -> OfSize
    requires { (m ≤ small_pairs) × (t ≤ small_faulty) × (number < choices_below m (suc t)) }
    ensures { (result.size ≤ t) × (number ≡ choices_below m result.size + result.number) × (result.number < choices m result.size) }
{
    let mut size: usize = 0;
    let mut rest = number;
    while size < t {
        let sets = choices(m, size);
        if rest < sets {
            return OfSize { size, number: rest };
        }
        rest -= sets;
        size += 1;
    }
    OfSize { size, number: rest }
}

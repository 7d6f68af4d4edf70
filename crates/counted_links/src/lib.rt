// The number of a base's links. Those of which a test holds are counted one after another (specs/Counted).

#![tactic(auto)]

ghost use Rattle.std.specs.Prelude.{◌-◌, min, ◌≡◌};
ghost use Rattle.limits.specs.Limits.{most_links};

use limits::MOST_LINKS;

// The links of a base in a net of n: n - 1, and no more than there is room for.
pub fn links_in(n: u8) -> usize
    ensures { result ≡ min (n - 1) most_links }
{
    let n = n as usize;
    if n == 0 {
        return 0;
    }
    if MOST_LINKS < n - 1 {
        return MOST_LINKS;
    }
    n - 1
}

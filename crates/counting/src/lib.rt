// Counting in code. The sums and tests over 0 .. k - 1, with their laws, are in specs/; they know no base and no frame.

#![tactic(auto)]

ghost use Rattle.std.specs.Prelude.{◌≤◌, ◌≡◌};
ghost use Rattle.counting.specs.Sums.{bit};

// One for a test that holds.
pub fn one(test: bool) -> usize
    ensures { (result ≡ bit test) × (result ≤ 1) }
{
    if test {
        return 1;
    }
    0
}

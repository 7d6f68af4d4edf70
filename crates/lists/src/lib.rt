// The lesser of two numbers, and the first of two by which a call is turned down. In specs/ the words over tests and lists that the
// definitions share, with their laws.

#![tactic(auto)]

ghost use Rattle.std.specs.Prelude.{min, ◌≡◌};
ghost use Rattle.lists.specs.Choice.{first};

pub fn least(a: usize, b: usize) -> usize
    ensures { result ≡ min a b }
{
    if a < b {
        return a;
    }
    b
}

// The number of the first check, or that of the next where the first gives none.
pub fn first_of(a: u8, b: u8) -> u8
    ensures { result ≡ first a b }
{
    if a == 0 {
        return b;
    }
    a
}

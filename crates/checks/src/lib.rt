// The tests that make a base stop or vote, on its record.

#![tactic(auto)]

ghost use Rattle.std.specs.Prelude.{◌≡◌, take};
ghost use Rattle.protocol.specs.Steps.{prime_holds, secondary_holds, votes};

use certification::certified_count;
use correct_finals::correct_count;
use limits::MOST_BASES;
use protocol::Base;
use sum_of_tallies::tally_sum;
use suspects::suspect_count;
use vectors::list_tally;

// The prime check.
pub fn is_prime(base: Base) -> bool
    ensures { result ≡ prime_holds base }
{
    let n = base.n as usize;
    let t = base.t as usize;
    if certified_count(base) != n {
        return false;
    }
    if tally_sum(base) + 2 * t < n * n {
        return false;
    }
    suspect_count(base) <= t
}

// The secondary check on the first n identifiers of v.
pub fn is_secondary(base: Base, v: [u32; MOST_BASES]) -> bool
    ensures { result ≡ secondary_holds base (take base.n v) }
{
    let t = base.t as usize;
    if list_tally(base, v) < t + 1 {
        return false;
    }
    2 <= correct_count(base, v)
}

// Whether a Verify-Final of them is broadcast.
pub fn is_vote(base: Base, v: [u32; MOST_BASES]) -> bool
    ensures { result ≡ votes base (take base.n v) }
{
    if base.sent != 0 {
        return false;
    }
    2 <= correct_count(base, v)
}

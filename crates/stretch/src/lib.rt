// The body of a burst, lent out of the burst.

#![tactic(auto)]

ghost use Rattle.std.specs.Prelude.{◌≡◌, ◌+◌};
ghost use Rattle.reader.specs.Answers.{stretch_start, stretch};

use limits::IDENTIFIER_BYTES;
use reader::{Reading, read};

// The body as that very stretch of the burst; an empty stretch, at the burst's beginning, where the burst is turned down.
pub fn stretch<'a>(n: usize, burst: &'a [u8]) -> &'a [u8]
    ensures { (result.now ≡ stretch n burst.now)
        × ((result.ref_ptr.0 ≡ burst.entry.ref_ptr.0) × (result.ref_ptr.1 ≡ burst.entry.ref_ptr.1 + stretch_start n burst.now)) }
{
    let Reading::Message {
        kind: _,
        count,
        start,
    } = read(n, burst)
    else {
        return &burst[0..0];
    };
    &burst[start..start + IDENTIFIER_BYTES * (count as usize)]
}

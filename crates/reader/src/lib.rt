// A burst, read from its end.

#![tactic(auto)]

ghost use Rattle.std.specs.Prelude.{◌≡◌};
ghost use Rattle.reader.specs.Answers.{reading_of};

use bursts::check;
use limits::frame_bytes;

// What a reading answers: the message's kind, the count of its identifiers and where they start in the burst, or the number by
// which the burst is turned down.
#[derive(Clone, Copy)]
pub enum Reading {
    Message { kind: u8, count: u8, start: usize },
    Refused(u8),
}

// The message's kind, the count of its identifiers and where they start, or the number by which the burst is turned down. The back
// distance of a burst that passes is the length of its frame.
pub fn read(n: usize, burst: &[u8]) -> Reading
    ensures { result ≡ reading_of n burst.now }
{
    let refusal = check(n, burst);
    if refusal != 0 {
        return Reading::Refused(refusal);
    }
    let len = burst.len();
    let kind = burst[len - 4];
    let count = burst[len - 3];
    let start = len - frame_bytes(count);
    Reading::Message { kind, count, start }
}

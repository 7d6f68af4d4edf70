// Parts of slices and sums of places, for any numbers; which bytes print.

#![tactic(auto)]

ghost use Rattle.std.specs.Prelude.{◌≡◌};
ghost use Rattle.parts.specs.Parts.{part_of, line_length, place_behind, printing};

const LAST_PLACE: usize = 18446744073709551615;

// The len bytes of s from a place on, as far as there are so many.
pub fn part<'a>(s: &'a [u8], from: usize, len: usize) -> &'a [u8]
    ensures { result.now ≡ part_of s.now from len }
{
    if s.len() < from {
        return &s[0..0];
    }
    let rest = s.len() - from;
    if rest < len {
        return &s[from..];
    }
    &s[from..from + len]
}

// The bytes from a place up to the line feed before another.
pub fn between(at: usize, next: usize) -> usize
    ensures { result ≡ line_length at next }
{
    if next <= at {
        return 0;
    }
    next - at - 1
}

// A place further on.
pub fn plus(at: usize, by: usize) -> usize
    ensures { result ≡ place_behind at by }
{
    if LAST_PLACE - at < by {
        return LAST_PLACE;
    }
    at + by
}

// Whether a byte is seen where it is written: a space and the signs of ASCII.
pub fn prints(b: u8) -> bool
    ensures { result ≡ printing b }
{
    if b < b' ' {
        return false;
    }
    b <= b'~'
}

// The values of bytes in hexadecimal.

#![tactic(auto)]

ghost use Rattle.std.specs.Prelude.{◌≡◌, ◌+◌, ◌-◌, ◌/◌, ◌<◌, ◌≤◌, length, get_or};
ghost use Rattle.hexadecimal.specs.Hex.{hex_digit, hex_pair};
ghost use Rattle.hex_bytes.specs.Array.{hex_array};

use limits::LONGEST_FORGERY;
use lists::least;

// The value of a digit; 0 of any other byte.
fn hex_digit(b: u8) -> u8
    ensures value { result ≡ hex_digit b }
    ensures upper_bound { result < 16 }
{
    if b < b'0' {
        return 0;
    }
    if b <= b'9' {
        return b - b'0';
    }
    if b < b'a' {
        return 0;
    }
    if b <= b'f' {
        return b - 87;
    }
    0
}

fn hex_pair(s: &[u8], at: usize) -> u8
    requires { at + 1 < length s.now }
    ensures { result ≡ hex_pair (get_or s.now at 0) (get_or s.now (at + 1) 0) }
{
    hex_digit(s[at]) * 16 + hex_digit(s[at + 1])
}

// For how many bytes the text has two digits from a place on.
fn pairs_from(s: &[u8], at: usize) -> usize
    ensures { result ≡ (length s.now - at) / 2 }
{
    if s.len() < at {
        return 0;
    }
    (s.len() - at) / 2
}

// The bytes at a position, so many of them, zeros behind. Bytes stand only where the text has two digits for each.
pub fn hex_array(s: &[u8], at: usize, count: usize) -> [u8; LONGEST_FORGERY]
    ensures { result ≡ hex_array s.now at count }
{
    let mut bytes = [0u8; LONGEST_FORGERY];
    let end = least(least(count, LONGEST_FORGERY), pairs_from(s, at));
    let mut i: usize = 0;
    while i < end {
        bytes[i] = hex_pair(s, at + 2 * i);
        i += 1;
    }
    bytes
}

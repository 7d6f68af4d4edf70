// Bytes in hexadecimal, two lower-case digits each, up to a line feed.

#![tactic(auto)]

ghost use Rattle.std.specs.Prelude.{◌≡◌, ◌+◌, ◌<◌, length, get_or, drop};
ghost use Rattle.lists.specs.Choice.{and};
ghost use Rattle.hexadecimal.specs.Hex.{is_hex, hex_from, hex_at};

use limits::LONGEST_FORGERY;

// How many bytes stand there, and the position behind the line feed.
#[derive(Clone, Copy)]
pub enum Hex {
    Bytes(usize, usize),
    Bad,
}

fn is_hex(b: u8) -> bool
    ensures { result ≡ is_hex b }
{
    if b < b'0' {
        return false;
    }
    if b <= b'9' {
        return true;
    }
    if b < b'a' {
        return false;
    }
    b <= b'f'
}

// Whether two digits stand at a place.
fn is_pair(s: &[u8], i: usize) -> bool
    requires { i < length s.now }
    ensures { result ≡ and (is_hex (get_or s.now i 0)) (is_hex (get_or s.now (i + 1) 0)) }
{
    if s.len() - i < 2 {
        return false;
    }
    if is_hex(s[i]) {
        return is_hex(s[i + 1]);
    }
    false
}

// The pairs of digits from a position on, up to a line feed.
fn hex_from(s: &[u8], at: usize) -> Hex
    ensures { result ≡ hex_from (drop at s.now) 0 at }
{
    let mut i = at;
    let mut count: usize = 0;
    while i < s.len() {
        if s[i] == b'\n' {
            return Hex::Bytes(count, i + 1);
        }
        if is_pair(s, i) {
            i += 2;
            count += 1;
        } else {
            return Hex::Bad;
        }
    }
    Hex::Bad
}

// The bytes in hexadecimal at a position: as many as a line can forge.
pub fn hex_at(s: &[u8], at: usize) -> Hex
    ensures { result ≡ hex_at s.now at }
{
    let Hex::Bytes(count, next) = hex_from(s, at) else {
        return Hex::Bad;
    };
    if LONGEST_FORGERY < count {
        return Hex::Bad;
    }
    Hex::Bytes(count, next)
}

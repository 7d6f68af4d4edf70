// Decimal numbers without leading zeros, at most 4,294,967,295.
ghost use Rattle.std.specs.Prelude.{◌≡◌, ◌≤◌, drop};
ghost use Rattle.text.specs.Number.{most_number, digits_from, number_at, field_at};

pub const MOST_NUMBER: u64 = 4294967295;

// A number and the position behind it.
#[derive(Clone, Copy)]
pub enum Number {
    Value(u32, usize),
    Bad,
}

fn digit_value(x: u8) -> u64
    ensures { result ≡ x }
{
    x as u64
}

// The digits from a position on, after those of which the number so far is made.
fn digits_from(s: &[u8], at: usize, first: u64) -> Number
    requires { first ≤ most_number }
    ensures { result ≡ digits_from (drop at s.now) first at }
{
    let mut i = at;
    let mut v = first;
    while i < s.len() {
        let b = s[i];
        if b < b'0' {
            return Number::Value(v as u32, i);
        }
        if b'9' < b {
            return Number::Value(v as u32, i);
        }
        let more = v * 10 + digit_value(b - b'0');
        if MOST_NUMBER < more {
            return Number::Bad;
        }
        v = more;
        i += 1;
    }
    Number::Value(v as u32, i)
}

// The number at a position.
pub fn number_at(s: &[u8], at: usize) -> Number
    ensures { result ≡ number_at s.now at }
{
    if s.len() <= at {
        return Number::Bad;
    }
    let b = s[at];
    if b < b'0' {
        return Number::Bad;
    }
    if b'9' < b {
        return Number::Bad;
    }
    if b == b'0' {
        return Number::Value(0, at + 1);
    }
    digits_from(s, at + 1, digit_value(b - b'0'))
}

// The number at a position, with the byte `close` right behind it; the answer's position is behind that byte.
pub fn field_at(s: &[u8], at: usize, close: u8) -> Number
    ensures { result ≡ field_at s.now at close }
{
    let Number::Value(v, next) = number_at(s, at) else {
        return Number::Bad;
    };
    if s.len() <= next {
        return Number::Bad;
    }
    if s[next] == close {
        Number::Value(v, next + 1)
    } else {
        Number::Bad
    }
}

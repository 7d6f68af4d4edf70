// Two numbers in a line, and bases of the net.
ghost use Rattle.std.specs.Prelude.{◌≡◌};
ghost use Rattle.lines.specs.Lines.{two_at, is_base, two_bases};

use text::number::{Number, field_at};

// Two numbers, and the position behind them.
#[derive(Clone, Copy)]
pub enum Two {
    Both(u32, u32, usize),
    Neither,
}

// Two numbers with a space between them, the second closed by the byte `close`.
pub fn two_at(s: &[u8], at: usize, close: u8) -> Two
    ensures { result ≡ two_at s.now at close }
{
    let Number::Value(a, next) = field_at(s, at, b' ') else {
        return Two::Neither;
    };
    let Number::Value(b, end) = field_at(s, next, close) else {
        return Two::Neither;
    };
    Two::Both(a, b, end)
}

// Whether b is one of the bases 1 to n.
pub fn is_base(n: u8, b: u32) -> bool
    ensures { result ≡ is_base n b }
{
    let most = n as u32;
    if b < 1 {
        return false;
    }
    b <= most
}

// Whether a and b are two different bases of the net.
pub fn two_bases(n: u8, a: u32, b: u32) -> bool
    ensures { result ≡ two_bases n a b }
{
    if is_base(n, a) {
        if is_base(n, b) {
            return a != b;
        }
    }
    false
}

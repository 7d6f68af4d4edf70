// A number's decimal digits.
ghost use Rattle.std.specs.Prelude.{◌≡◌, ◌+◌, ◌<◌, ◌≤◌, length, drop};
ghost use Rattle.print.specs.Decimal.{most_digits, decimal_text};

use crate::MOST_DIGITS;

// The digits stand at the array's end.
#[derive(Clone, Copy)]
pub(crate) struct Digits {
    pub start: usize,
    pub bytes: [u8; MOST_DIGITS],
}

fn digit(d: u64) -> u8
    requires { d < 10 }
    ensures { result ≡ 48 + d }
{
    (48 + d) as u8
}

pub(crate) fn decimal(v: u64) -> Digits
    ensures { (result.start ≤ most_digits) × ((length result.bytes ≡ most_digits) × (drop result.start result.bytes ≡ decimal_text v)) }
{
    let mut bytes = [0u8; MOST_DIGITS];
    let mut start: usize = MOST_DIGITS;
    let mut rest = v;
    while 0 < start {
        start -= 1;
        bytes[start] = digit(rest % 10);
        if rest < 10 {
            return Digits {
                start: start,
                bytes: bytes,
            };
        }
        rest = rest / 10;
    }
    Digits {
        start: start,
        bytes: bytes,
    }
}

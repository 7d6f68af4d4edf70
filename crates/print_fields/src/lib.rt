// A label and a number in decimal, put at a place of an output. Where both do not fit, nothing is written, and the place stays.

#![tactic(auto)]

mod decimal;

ghost use Rattle.std.specs.Prelude.{◌≡◌};
ghost use Rattle.print.specs.Put.{text_end, text_output};
ghost use Rattle.print.specs.Decimal.{field_text};

use crate::decimal::decimal;
use print::{has_room, put_text};

// Digits of the largest number of 64 bits.
pub const MOST_DIGITS: usize = 20;

// A label and a number in decimal at a place; the answer is the place behind them.
pub fn put_field(out: &mut [u8], at: usize, label: &[u8], v: u64) -> usize
    ensures value { result ≡ text_end out.old at (field_text label.now v) }
    ensures out_after { out.new ≡ text_output out.old at (field_text label.now v) }
{
    let digits = decimal(v);
    let bytes = digits.bytes;
    let start = digits.start;
    if !has_room(out.len(), at, label.len() + (MOST_DIGITS - start)) {
        return at;
    }
    let end = put_text(out, at, label);
    put_text(out, end, &bytes[start..])
}

// The lines of a schedule's header that name its size and the bases' identifiers.

#![tactic(auto)]

ghost use Rattle.std.specs.Prelude.{◌≡◌};
ghost use Rattle.lines.specs.Lines.{net_line, id_line};

use lines::bases::{Two, two_at};
use text::number::Number;
use words::{Word, word_at};

// `net n t`
pub fn net_line(s: &[u8], at: usize) -> Two
    ensures { result ≡ net_line s.now at }
{
    let Word::Past(next) = word_at(s, at, b"net ") else {
        return Two::Neither;
    };
    two_at(s, next, b'\n')
}

// `id b v`, for the base b
pub fn id_line(b: u8, s: &[u8], at: usize) -> Number
    ensures { result ≡ id_line b s.now at }
{
    let Word::Past(next) = word_at(s, at, b"id ") else {
        return Number::Bad;
    };
    let Two::Both(base, v, end) = two_at(s, next, b'\n') else {
        return Number::Bad;
    };
    if base == b as u32 {
        Number::Value(v, end)
    } else {
        Number::Bad
    }
}

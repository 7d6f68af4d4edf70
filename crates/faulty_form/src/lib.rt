// The line of a schedule's header that names a faulty link.

#![tactic(auto)]

ghost use Rattle.std.specs.Prelude.{◌≡◌, ltb};
ghost use Rattle.lists.specs.Choice.{and};
ghost use Rattle.lines.specs.Lines.{is_base, faulty_line};

use lines::bases::{Two, is_base, two_at};
use words::{Word, word_at};

// Whether two numbers are bases of the net, the lesser first.
fn ascending_bases(n: u8, a: u32, b: u32) -> bool
    ensures { result ≡ and (is_base n a) (and (is_base n b) (ltb a b)) }
{
    if is_base(n, a) {
        if is_base(n, b) {
            return a < b;
        }
    }
    false
}

// `faulty a b` (a < b)
pub fn faulty_line(n: u8, s: &[u8], at: usize) -> Two
    ensures { result ≡ faulty_line n s.now at }
{
    let Word::Past(next) = word_at(s, at, b"faulty ") else {
        return Two::Neither;
    };
    let Two::Both(a, b, end) = two_at(s, next, b'\n') else {
        return Two::Neither;
    };
    if ascending_bases(n, a, b) {
        Two::Both(a, b, end)
    } else {
        Two::Neither
    }
}

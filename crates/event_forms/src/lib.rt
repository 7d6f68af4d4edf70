// The lines of a schedule's events.

#![tactic(auto)]

ghost use Rattle.std.specs.Prelude.{◌≡◌};
ghost use Rattle.lines.specs.Lines.{start_fields, carry_fields, forge_fields, event_line};

use hexadecimal::{Hex, hex_at};
use lines::bases::{Two, is_base, two_at, two_bases};
use lines::event::Line;
use text::number::{Number, field_at};
use words::{Word, word_at};

fn start_fields(n: u8, s: &[u8], at: usize) -> Line
    ensures { result ≡ start_fields n s.now at }
{
    let Number::Value(b, next) = field_at(s, at, b'\n') else {
        return Line::Wrong;
    };
    if is_base(n, b) {
        Line::Start {
            base: b as u8,
            next,
        }
    } else {
        Line::Wrong
    }
}

fn carry_fields(n: u8, s: &[u8], at: usize) -> Line
    ensures { result ≡ carry_fields n s.now at }
{
    let Two::Both(a, b, third) = two_at(s, at, b' ') else {
        return Line::Wrong;
    };
    let Number::Value(k, next) = field_at(s, third, b'\n') else {
        return Line::Wrong;
    };
    if k < 1 {
        return Line::Wrong;
    }
    if two_bases(n, a, b) {
        Line::Carry {
            from: a as u8,
            to: b as u8,
            number: k,
            next,
        }
    } else {
        Line::Wrong
    }
}

fn forge_fields(n: u8, s: &[u8], at: usize) -> Line
    ensures { result ≡ forge_fields n s.now at }
{
    let Two::Both(a, b, third) = two_at(s, at, b' ') else {
        return Line::Wrong;
    };
    let Hex::Bytes(count, next) = hex_at(s, third) else {
        return Line::Wrong;
    };
    if two_bases(n, a, b) {
        Line::Forge {
            from: a as u8,
            to: b as u8,
            at: third,
            count,
            next,
        }
    } else {
        Line::Wrong
    }
}

// `start b`, `carry a b k` or `forge a b hex`, in a net of n bases
pub fn event_line(n: u8, s: &[u8], at: usize) -> Line
    ensures { result ≡ event_line n s.now at }
{
    if let Word::Past(next) = word_at(s, at, b"start ") {
        return start_fields(n, s, next);
    }
    if let Word::Past(next) = word_at(s, at, b"carry ") {
        return carry_fields(n, s, next);
    }
    if let Word::Past(next) = word_at(s, at, b"forge ") {
        return forge_fields(n, s, next);
    }
    Line::Wrong
}

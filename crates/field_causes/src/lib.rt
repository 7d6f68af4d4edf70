// Number 13: what is wrong with the fields of a line whose word stands in its place, by themselves and held against the net.

#![tactic(auto)]

pub mod alike;
mod cause;

use crate::alike::first_alike;
pub use crate::cause::FieldCause;
use cause_text::shown::{NamedField, NumberedByte};
use limits::LONGEST_FORGERY;
use line_fields::forms::Form;
use line_fields::line::{field, fields_from, value};
use line_fields::spaces::{nth_space, spaces};
use parts::plus;
use text::number::{Number, number_at};

// What keeps a field that is there from being a decimal number without leading zeros, at most 4,294,967,295.
fn decimal_cause<'a>(form: Option<Form>, line: &'a [u8], i: usize) -> Option<FieldCause<'a>> {
    let digits = field(line, i);
    let named = NamedField::in_line(form, line, i);
    if digits.iter().any(|b| !b.is_ascii_digit()) {
        return Some(FieldCause::NotDigits(named));
    }
    if digits.is_empty() {
        return None;
    }
    match number_at(digits, 0) {
        Number::Value(_, next) if next == digits.len() => None,
        Number::Value(_, _) => Some(FieldCause::LeadingZero(named)),
        Number::Bad => Some(FieldCause::TooLarge(named)),
    }
}

fn in_net(line: &[u8], i: usize, n: usize) -> bool {
    let b = value(line, i);
    0 < b && b <= n
}

// What is told of hex behind the count of fields: the bytes may be missing with their space.
pub fn hex_hint<'a>(form: Option<Form>, line: &'a [u8], n: usize) -> Option<FieldCause<'a>> {
    if form != Some(Form::Forge) {
        return None;
    }
    if let Some(place) = nth_space(line, 3) {
        return Some(FieldCause::HexTogether(plus(place, 1)));
    }
    if spaces(line) == 2 && in_net(line, 2, n) {
        return Some(FieldCause::SpaceBeforeHex);
    }
    None
}

// A digit of hex that there is not, in the last field.
fn hex_digit_cause<'a>(line: &'a [u8]) -> Option<FieldCause<'a>> {
    let digits = fields_from(line, 3);
    let place = digits
        .iter()
        .position(|b| !matches!(*b, b'0'..=b'9' | b'a'..=b'f'))?;
    let byte = *digits.get(place)?;
    let before = line.len().saturating_sub(digits.len());
    let number = plus(plus(before, place), 1);
    Some(match byte {
        b'A'..=b'F' => FieldCause::CapitalHex(NumberedByte { number, byte }),
        _ => FieldCause::NotHex(NumberedByte { number, byte }),
    })
}

// Two digits a byte, as many as a line can forge.
fn hex_length<'a>(length: usize) -> Option<FieldCause<'a>> {
    if length % 2 == 1 {
        return Some(FieldCause::OddDigits(length));
    }
    if 2 * LONGEST_FORGERY < length {
        return Some(FieldCause::TooManyBytes(length / 2));
    }
    None
}

fn third<'a>(form: Option<Form>, line: &'a [u8]) -> Option<FieldCause<'a>> {
    if form == Some(Form::Forge) {
        return hex_digit_cause(line).or(hex_length(field(line, 3).len()));
    }
    decimal_cause(form, line, 3)
}

fn base_cause<'a>(
    form: Option<Form>,
    line: &'a [u8],
    i: usize,
    n: usize,
) -> Option<FieldCause<'a>> {
    if in_net(line, i, n) {
        return None;
    }
    Some(FieldCause::NoBase(NamedField::in_line(form, line, i), n))
}

// Two different bases of the net.
fn bases<'a>(form: Option<Form>, line: &'a [u8], n: usize) -> Option<FieldCause<'a>> {
    let both = base_cause(form, line, 1, n).or(base_cause(form, line, 2, n));
    if value(line, 1) == value(line, 2) {
        return both.or(Some(FieldCause::SameBase));
    }
    both
}

fn faulty<'a>(s: &[u8], line: &'a [u8]) -> FieldCause<'a> {
    if value(line, 2) < value(line, 1) {
        return FieldCause::LargerFirst;
    }
    FieldCause::LinkAgain(first_alike(s, line, 0))
}

// Of a base whose line stands before the one that is refused, which line that is.
pub fn line_of_base<'a>(line: &'a [u8], number: usize) -> Option<FieldCause<'a>> {
    let base = value(line, 1);
    let its_line = plus(base, 1);
    if base == 0 || number <= its_line {
        return None;
    }
    Some(FieldCause::HasLine {
        line: its_line,
        base,
    })
}

// In the header, or behind it.
fn id<'a>(line: &'a [u8], number: usize, n: usize) -> Option<FieldCause<'a>> {
    let named = NamedField::in_line(Some(Form::Id), line, 1);
    if number <= plus(n, 1) {
        return Some(FieldCause::OtherBase(named, number.saturating_sub(1)));
    }
    let again = FieldCause::IdAgain(named, plus(value(line, 1), 1));
    base_cause(Some(Form::Id), line, 1, n).or(Some(again))
}

// The fields together, and held against the net.
fn together<'a>(
    form: Option<Form>,
    s: &[u8],
    line: &'a [u8],
    number: usize,
    n: usize,
) -> Option<FieldCause<'a>> {
    match form {
        Some(Form::Net) => None,
        Some(Form::Id) => id(line, number, n),
        Some(Form::Faulty) => bases(form, line, n).or(Some(faulty(s, line))),
        Some(Form::Start) => base_cause(form, line, 1, n),
        Some(Form::Carry) => bases(form, line, n).or(Some(FieldCause::NumberZero)),
        Some(Form::Forge) | None => bases(form, line, n),
    }
}

// Of the line of that number, in a net of n.
pub fn field_cause<'a>(
    form: Option<Form>,
    s: &[u8],
    line: &'a [u8],
    number: usize,
    n: usize,
) -> Option<FieldCause<'a>> {
    let count = spaces(line);
    if count != form.map_or(0, |form| form.asked()) {
        return Some(FieldCause::FieldCount(form, count));
    }
    decimal_cause(form, line, 1)
        .or(decimal_cause(form, line, 2))
        .or(third(form, line))
        .or(together(form, s, line, number, n))
}

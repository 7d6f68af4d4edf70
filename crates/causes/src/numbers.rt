// The causes of numbers 1 to 3 and 14 to 18.
use crate::RefusedLine;
use cause_text::shown::{CountOf, NamedField};
use field_causes::alike::first_alike;
use limits::{most_faulty, refusal};
use line_fields::forms::Form;
use line_fields::line::value;
use std::fmt;

#[derive(Clone, Copy)]
pub(crate) enum NumberCause<'a> {
    WrongNumber(NamedField<'a>),
    // The limit.
    AboveLimit(NamedField<'a>, usize),
    IdentifierZero,
    // The line that has it.
    IdentifierAgain(usize),
    // How many links may be named.
    TooManyFaulty(usize),
    // How many the base has broadcast.
    TooFewBroadcasts(NamedField<'a>, usize),
    // The line that is the same.
    CarryAgain(usize),
    // The bases of the link.
    GoodLink(usize, usize),
}

impl fmt::Display for NumberCause<'_> {
    fn fmt<W: fmt::Write>(&self, f: &mut fmt::Formatter<W>) -> fmt::Result {
        match *self {
            NumberCause::WrongNumber(field) => write!(f, "{field}"),
            NumberCause::AboveLimit(field, most) => write!(
                f,
                "{field}, and with so many bases t is at most {most}"
            ),
            NumberCause::IdentifierZero => write!(f, "an identifier is above zero"),
            NumberCause::IdentifierAgain(line) => write!(f, "line {line} has it for another base"),
            NumberCause::TooManyFaulty(0) => write!(f, "t is 0, so no link may be named faulty"),
            NumberCause::TooManyFaulty(1) => write!(f, "t is 1, and 1 is named already"),
            NumberCause::TooManyFaulty(t) => write!(f, "t is {t}, and {t} are named already"),
            NumberCause::TooFewBroadcasts(field, count) => too_few(
                f,
                field,
                CountOf(count, "message"),
            ),
            NumberCause::CarryAgain(line) => write!(f, "line {line} is that carry"),
            NumberCause::GoodLink(a, b) => write!(f, "the header has no line `faulty {a} {b}`"),
        }
    }
}

fn too_few<W: fmt::Write>(
    f: &mut fmt::Formatter<W>,
    field: NamedField<'_>,
    messages: CountOf,
) -> fmt::Result {
    write!(
        f,
        "{field}, and up to here that base has broadcast {messages}"
    )
}

// The smaller base first.
fn good_link<'a>(line: &'a [u8]) -> NumberCause<'a> {
    let (a, b) = (value(line, 1), value(line, 2));
    NumberCause::GoodLink(a.min(b), a.max(b))
}

fn identifier_again<'a>(s: &[u8], line: &'a [u8]) -> NumberCause<'a> {
    NumberCause::IdentifierAgain(first_alike(s, line, 2))
}

fn carry_again<'a>(s: &[u8], line: &'a [u8]) -> NumberCause<'a> {
    NumberCause::CarryAgain(first_alike(s, line, 0))
}

// Field i, which has its name by the line's own form.
fn named<'a>(line: &'a [u8], i: usize) -> NamedField<'a> {
    NamedField::in_line(Form::of_line(line), line, i)
}

fn wrong_number<'a>(line: &'a [u8]) -> NumberCause<'a> {
    NumberCause::WrongNumber(named(line, 1))
}

fn above_limit<'a>(line: &'a [u8]) -> NumberCause<'a> {
    let most = most_faulty(value(line, 1));
    NumberCause::AboveLimit(named(line, 2), most)
}

fn too_few_broadcasts<'a>(line: &'a [u8], count: usize) -> NumberCause<'a> {
    NumberCause::TooFewBroadcasts(named(line, 1), count)
}

pub(crate) fn number_cause<'a>(s: &[u8], line: &'a [u8], refused: &RefusedLine) -> NumberCause<'a> {
    match refused.refusal {
        refusal::BASES => wrong_number(line),
        refusal::FAULTY_LIMIT => above_limit(line),
        refusal::OWN_IDENTIFIER => NumberCause::IdentifierZero,
        refusal::SAME_IDENTIFIER => identifier_again(s, line),
        refusal::FAULTY_LINKS => NumberCause::TooManyFaulty(refused.t),
        refusal::NOT_BROADCAST => too_few_broadcasts(line, refused.broadcasts),
        refusal::CARRIED_BEFORE => carry_again(s, line),
        _ => good_link(line),
    }
}

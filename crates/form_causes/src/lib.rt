// Number 13: what breaks a line's form before its fields are looked at: its bytes, its spaces, its word.

#![tactic(auto)]

mod cause;
mod encoding;

pub use crate::cause::FormCause;
use crate::encoding::encoding;
use cause_text::shown::NumberedByte;
use line_fields::forms::Form;
use line_fields::line::field;
use line_fields::spaces::{odd_space, spaces};
use parts::{plus, prints};

// The line of the header that belongs here: of the net, or of base b in line b + 1.
pub fn belongs<'a>(number: usize) -> FormCause<'a> {
    if number < 2 {
        return FormCause::FirstLine;
    }
    FormCause::Belongs(number - 1)
}

// The first byte that does not print.
fn odd_byte<'a>(line: &'a [u8]) -> Option<FormCause<'a>> {
    let place = line.iter().position(|b| !prints(*b))?;
    let byte = *line.get(place)?;
    let number = plus(place, 1);
    Some(match byte {
        b'\r' => FormCause::CarriageReturn(number),
        b'\t' => FormCause::Tab(number),
        0..128 => FormCause::Control(NumberedByte { number, byte }),
        _ => FormCause::NotAscii(NumberedByte { number, byte }),
    })
}

fn comment<'a>(line: &'a [u8]) -> Option<FormCause<'a>> {
    let place = line.iter().position(|b| *b == b'#')?;
    Some(FormCause::Comment(plus(place, 1)))
}

// A line feed stands behind the line, or else the schedule ends with it.
fn unended<'a>(s: &[u8], line: &[u8], at: usize) -> Option<FormCause<'a>> {
    if plus(at, line.len()) < s.len() {
        return None;
    }
    Some(FormCause::NoLineFeed)
}

// A space behind which the line ends: a field is missing there, or the space is too many. Behind `forge a b ` there may be nothing.
fn last_space<'a>(form: Option<Form>, line: &'a [u8]) -> Option<FormCause<'a>> {
    let count = spaces(line);
    let ends_with_word = line.last().is_some_and(|b| *b != b' ');
    if ends_with_word || (count == 3 && form == Some(Form::Forge)) {
        return None;
    }
    match form {
        Some(form) if count <= form.asked() => Some(FormCause::Missing(form, count)),
        _ if line.is_empty() => None,
        _ => Some(FormCause::SpaceAtEnd(line.len())),
    }
}

// A space that has no word before it, and whether a word follows.
fn space_before<'a>(line: &'a [u8]) -> Option<FormCause<'a>> {
    let place = odd_space(line)?;
    let number = plus(place, 1);
    let behind = line.get(place..).unwrap_or(&[]);
    if behind.iter().all(|b| *b == b' ') {
        return Some(FormCause::SpaceAtEnd(number));
    }
    Some(FormCause::SpaceTooMany(number))
}

fn unknown<'a>(line: &'a [u8]) -> FormCause<'a> {
    if line.is_empty() {
        return FormCause::Empty;
    }
    FormCause::NoWord(field(line, 0))
}

// The form of a header's line but for the faulty links.
fn header_form(number: usize) -> Form {
    if number < 2 {
        return Form::Net;
    }
    Form::Id
}

fn behind_the_header<'a>(form: Form, number: usize, events: usize) -> Option<FormCause<'a>> {
    match form {
        Form::Net => Some(FormCause::NetAgain),
        Form::Faulty if events < number => Some(FormCause::FaultyLate),
        _ => None,
    }
}

// A word that stands in another place than its own.
fn misplaced<'a>(form: Form, number: usize, n: usize, faulty: usize) -> Option<FormCause<'a>> {
    if plus(n, 1) < number {
        let events = plus(plus(n, faulty), 2);
        return behind_the_header(form, number, events);
    }
    if form == header_form(number) {
        return None;
    }
    Some(belongs(number))
}

// Of a line that begins at a place.
pub fn byte_cause<'a>(s: &[u8], line: &'a [u8], at: usize) -> Option<FormCause<'a>> {
    encoding(s, at)
        .or(comment(line))
        .or(odd_byte(line))
        .or(unended(s, line, at))
}

pub fn space_cause<'a>(form: Option<Form>, line: &'a [u8]) -> Option<FormCause<'a>> {
    space_before(line).or(last_space(form, line))
}

// Of the line of that number, in a net of n with so many faulty links.
pub fn word_cause<'a>(
    form: Option<Form>,
    line: &'a [u8],
    number: usize,
    n: usize,
    faulty: usize,
) -> Option<FormCause<'a>> {
    match form {
        Some(form) => misplaced(form, number, n, faulty),
        None => Some(unknown(line)),
    }
}

// Why a line of a schedule is refused, told on standard output: the line as it stands, the number in words, and the cause where there is
// one to name. A cause is read off the schedule's own bytes.

#![tactic(auto)]

mod cause;
mod numbers;

use crate::cause::Cause;
use crate::numbers::number_cause;
use cause_text::meanings::number_meaning;
use cause_text::shown::WholeLine;
use field_causes::{FieldCause, field_cause, hex_hint, line_of_base};
use form_causes::{belongs, byte_cause, space_cause, word_cause};
use limits::LONGEST_SCHEDULE;
use limits::refusal::FORM;
use line_fields::forms::Form;
use line_fields::line::line_at;

// A line that is refused, and what the lines before it have told.
#[derive(Clone, Copy)]
pub struct RefusedLine {
    pub refusal: u8,
    pub number: usize,
    // Where it begins.
    pub at: usize,
    // Of the net, zero in its own line.
    pub n: usize,
    pub t: usize,
    // How many links are named faulty.
    pub faulty: usize,
    // Of a carry: how many messages its sender has broadcast.
    pub broadcasts: usize,
}

// The first cause in the bytes, the spaces, the word and the fields of a line that ends.
fn ended_line<'a>(s: &[u8], line: &'a [u8], refused: &RefusedLine) -> Option<Cause<'a>> {
    let form = Form::of_line(line);
    let bytes = byte_cause(s, line, refused.at).or(space_cause(form, line));
    let word = word_cause(form, line, refused.number, refused.n, refused.faulty);
    let field = field_cause(form, s, line, refused.number, refused.n);
    bytes.or(word).map(Cause::Form).or(field.map(Cause::Field))
}

// Number 13: what breaks a line's form.
fn form_cause<'a>(s: &[u8], line: &'a [u8], refused: &RefusedLine) -> Option<Cause<'a>> {
    if LONGEST_SCHEDULE < s.len() {
        return Some(Cause::TooLong);
    }
    if s.len() <= refused.at {
        return Some(Cause::EndsBefore(refused.number));
    }
    ended_line(s, line, refused)
}

fn cause_of<'a>(s: &[u8], line: &'a [u8], refused: &RefusedLine) -> Option<Cause<'a>> {
    if refused.refusal == FORM {
        return form_cause(s, line, refused);
    }
    Some(Cause::Number(number_cause(s, line, refused)))
}

// What is told behind a cause.
fn further<'a>(cause: Cause<'a>, line: &'a [u8], refused: &RefusedLine) -> Option<Cause<'a>> {
    match cause {
        Cause::EndsBefore(number) => Some(Cause::Form(belongs(number))),
        Cause::Field(FieldCause::FieldCount(form, _)) => hex_hint(form, line, refused.n).map(
            Cause::Field,
        ),
        Cause::Field(FieldCause::OtherBase(_, _)) => line_of_base(line, refused.number).map(
            Cause::Field,
        ),
        _ => None,
    }
}

pub fn explain(out: &impl Print, s: &[u8], refused: &RefusedLine) {
    let line = line_at(s, refused.at);
    let _ = println!(out; "line {}: {}", refused.number, WholeLine(line));
    let _ = println!(out;
        "  refused by {}, {}",
        refused.refusal,
        number_meaning(refused.refusal as usize)
    );
    let Some(cause) = cause_of(s, line, refused) else {
        return;
    };
    let _ = println!(out; "  {cause}");
    if let Some(more) = further(cause, line, refused) {
        let _ = println!(out; "  {more}");
    }
}

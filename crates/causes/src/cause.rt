// A cause, in words.
use crate::numbers::NumberCause;
use field_causes::FieldCause;
use form_causes::FormCause;
use std::fmt;

#[derive(Clone, Copy)]
pub(crate) enum Cause<'a> {
    TooLong,
    // The line that is missing.
    EndsBefore(usize),
    Form(FormCause<'a>),
    Field(FieldCause<'a>),
    Number(NumberCause<'a>),
}

impl fmt::Display for Cause<'_> {
    fn fmt<W: fmt::Write>(&self, f: &mut fmt::Formatter<W>) -> fmt::Result {
        match *self {
            Cause::TooLong => write!(f, "the schedule has more than 65,536 bytes"),
            Cause::EndsBefore(line) => write!(f, "the schedule ends before line {line}"),
            Cause::Form(cause) => write!(f, "{cause}"),
            Cause::Field(cause) => write!(f, "{cause}"),
            Cause::Number(cause) => write!(f, "{cause}"),
        }
    }
}

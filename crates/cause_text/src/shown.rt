// A line, a field or a byte of it, as it is shown.
use crate::visible::Visible;
use limits::LONGEST_SCHEDULE;
use line_fields::forms::Form;
use line_fields::line::field;
use std::fmt;

// Bytes of a line that are shown, and those of them that are its last.
const SHOWN: usize = 80;

const LAST: usize = 20;

// Every byte, or the first and the last of a line that is long. Of a schedule that is too long no more is read than shows that it is.
#[derive(Clone, Copy)]
struct Shown<'a>(&'a [u8]);

impl fmt::Display for Shown<'_> {
    fn fmt<W: fmt::Write>(&self, f: &mut fmt::Formatter<W>) -> fmt::Result {
        let bytes = self.0;
        if bytes.len() <= SHOWN {
            return write!(f, "{}", Visible(bytes));
        }
        let (first, rest) = bytes.split_at(SHOWN - LAST);
        write!(f, "{} ...", Visible(first))?;
        if bytes.len() <= LONGEST_SCHEDULE {
            write!(f, " {}", Visible(&rest[rest.len() - LAST..]))?;
        }
        Ok(())
    }
}

// How long a line is that is cut.
#[derive(Clone, Copy)]
struct Size(usize);

impl fmt::Display for Size {
    fn fmt<W: fmt::Write>(&self, f: &mut fmt::Formatter<W>) -> fmt::Result {
        let count = self.0;
        match count {
            0..=SHOWN => Ok(()),
            0..1000 => write!(f, " ({count} bytes)"),
            0..=LONGEST_SCHEDULE => write!(f, " ({},{:03} bytes)", count / 1000, count % 1000),
            _ => write!(f, " (more than 65,536 bytes)"),
        }
    }
}

#[derive(Clone, Copy)]
pub struct WholeLine<'a>(pub &'a [u8]);

impl fmt::Display for WholeLine<'_> {
    fn fmt<W: fmt::Write>(&self, f: &mut fmt::Formatter<W>) -> fmt::Result {
        write!(f, "{}{}", Shown(self.0), Size(self.0.len()))
    }
}

#[derive(Clone, Copy)]
pub struct Quoted<'a>(pub &'a [u8]);

impl fmt::Display for Quoted<'_> {
    fn fmt<W: fmt::Write>(&self, f: &mut fmt::Formatter<W>) -> fmt::Result {
        write!(f, "`{}`{}", Shown(self.0), Size(self.0.len()))
    }
}

// A field by its name and as it stands. It is looked for in the line when it is shown.
#[derive(Clone, Copy)]
pub struct NamedField<'a> {
    form: Option<Form>,
    line: &'a [u8],
    i: usize,
}

impl<'a> NamedField<'a> {
    // Field i of a line of that form; it has no name where there is none.
    pub fn in_line(form: Option<Form>, line: &'a [u8], i: usize) -> NamedField<'a> {
        NamedField { form, line, i }
    }
}

impl fmt::Display for NamedField<'_> {
    fn fmt<W: fmt::Write>(&self, f: &mut fmt::Formatter<W>) -> fmt::Result {
        let i = self.i;
        let name = self.form.map_or("", |form| form.name(i));
        write!(f, "{name} is {}", Quoted(field(self.line, i)))
    }
}

// A byte of a line, by its number from 1 and as it stands.
#[derive(Clone, Copy)]
pub struct NumberedByte {
    pub number: usize,
    pub byte: u8,
}

impl fmt::Display for NumberedByte {
    fn fmt<W: fmt::Write>(&self, f: &mut fmt::Formatter<W>) -> fmt::Result {
        write!(f, "byte {} is {}", self.number, Quoted(&[self.byte]))
    }
}

// `1 field`, `2 fields`
#[derive(Clone, Copy)]
pub struct CountOf(pub usize, pub &'static str);

impl fmt::Display for CountOf {
    fn fmt<W: fmt::Write>(&self, f: &mut fmt::Formatter<W>) -> fmt::Result {
        write!(f, "{} {}", self.0, self.1)?;
        if self.0 != 1 {
            write!(f, "s")?;
        }
        Ok(())
    }
}

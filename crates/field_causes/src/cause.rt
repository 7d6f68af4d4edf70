// What is wrong with the fields of a line, in words.
use cause_text::shown::{CountOf, NamedField, NumberedByte};
use line_fields::forms::Form;
use std::fmt;

// A number is what it is named, or of a line, which is named so.
#[derive(Clone, Copy)]
pub enum FieldCause<'a> {
    // How many there are.
    FieldCount(Option<Form>, usize),
    SpaceBeforeHex,
    // The byte that is a space.
    HexTogether(usize),
    NotDigits(NamedField<'a>),
    TooLarge(NamedField<'a>),
    LeadingZero(NamedField<'a>),
    CapitalHex(NumberedByte),
    NotHex(NumberedByte),
    TooManyBytes(usize),
    OddDigits(usize),
    // How many bases the net has.
    NoBase(NamedField<'a>, usize),
    SameBase,
    NumberZero,
    LargerFirst,
    // The line.
    LinkAgain(usize),
    // The base of the line that belongs here.
    OtherBase(NamedField<'a>, usize),
    HasLine { line: usize, base: usize },
    // The line.
    IdAgain(NamedField<'a>, usize),
}

impl fmt::Display for FieldCause<'_> {
    fn fmt<W: fmt::Write>(&self, f: &mut fmt::Formatter<W>) -> fmt::Result {
        match *self {
            Self::FieldCount(form, count) => field_count(f, form, CountOf(count, "field")),
            Self::SpaceBeforeHex => write!(
                f,
                "the space before hex stands even where there are no bytes"
            ),
            Self::HexTogether(i) => write!(
                f,
                "byte {i} is a space, and the digits of hex stand together"
            ),
            Self::NotDigits(field) => write!(f, "{field}, not digits alone"),
            Self::TooLarge(field) => write!(f, "{field}, above 4,294,967,295"),
            Self::LeadingZero(field) => write!(f, "{field}, with a leading zero"),
            Self::CapitalHex(byte) => write!(f, "{byte}, and hex is in small letters"),
            Self::NotHex(byte) => write!(f, "{byte}, and hex has 0 to 9 and a to f"),
            Self::TooManyBytes(count) => write!(
                f,
                "hex has {count} bytes, and at most 132 are allowed"
            ),
            Self::OddDigits(count) => odd_digits(f, CountOf(count, "digit")),
            Self::NoBase(field, n) => write!(f, "{field}, and the net has bases 1 to {n}"),
            Self::SameBase => write!(f, "a and b are the same base"),
            Self::NumberZero => write!(f, "k is 0, and broadcasts are numbered from 1"),
            Self::LargerFirst => write!(f, "a is above b, and the smaller base comes first"),
            Self::LinkAgain(line) => write!(f, "line {line} names that link"),
            Self::OtherBase(field, b) => write!(
                f,
                "{field}, and here belongs the line of base {b}"
            ),
            Self::HasLine { line, base } => write!(f, "line {line} is the line of base {base}"),
            Self::IdAgain(field, line) => write!(
                f,
                "{field}, and that base has its line already, line {line}"
            ),
        }
    }
}

fn odd_digits<W: fmt::Write>(f: &mut fmt::Formatter<W>, digits: CountOf) -> fmt::Result {
    write!(f, "hex has {digits}, and a byte has two")
}

fn field_count<W: fmt::Write>(
    f: &mut fmt::Formatter<W>,
    form: Option<Form>,
    fields: CountOf,
) -> fmt::Result {
    write!(
        f,
        "the form is `{}`, and the line has {fields} behind its word",
        form.map_or("", |form| form.text())
    )
}

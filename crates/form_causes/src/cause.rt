// What breaks a line's form, in words.
use cause_text::shown::{NumberedByte, Quoted};
use line_fields::forms::Form;
use std::fmt;

// A number is that of a byte of the line, or of what is named.
#[derive(Clone, Copy)]
pub enum FormCause<'a> {
    FirstLine,
    // The base.
    Belongs(usize),
    ByteOrderMark,
    Utf16,
    Comment(usize),
    CarriageReturn(usize),
    Tab(usize),
    Control(NumberedByte),
    NotAscii(NumberedByte),
    NoLineFeed,
    SpaceTooMany(usize),
    SpaceAtEnd(usize),
    // The field.
    Missing(Form, usize),
    Empty,
    // The word.
    NoWord(&'a [u8]),
    NetAgain,
    FaultyLate,
}

impl fmt::Display for FormCause<'_> {
    fn fmt<W: fmt::Write>(&self, f: &mut fmt::Formatter<W>) -> fmt::Result {
        match *self {
            Self::FirstLine => write!(f, "the first line is `net n t`"),
            Self::Belongs(b) => write!(f, "here belongs the line of base {b}, `id b v`"),
            Self::ByteOrderMark => write!(
                f,
                "a byte-order mark (\\xef\\xbb\\xbf) stands at the beginning"
            ),
            Self::Utf16 => write!(
                f,
                "the text is in UTF-16, and each sign of a line is one byte"
            ),
            Self::Comment(i) => write!(f, "byte {i} is `#`, and a schedule has no comments"),
            Self::CarriageReturn(i) => write!(
                f,
                "byte {i} is a carriage return (\\r), and only a line feed ends a line"
            ),
            Self::Tab(i) => write!(
                f,
                "byte {i} is a tab (\\t), and one space separates two words"
            ),
            Self::Control(byte) => write!(f, "{byte}, a control character, and a line has none"),
            Self::NotAscii(byte) => write!(f, "{byte}, and a line has signs of ASCII alone"),
            Self::NoLineFeed => write!(f, "no line feed stands at the end"),
            Self::SpaceTooMany(i) => write!(f, "byte {i} is a space too many"),
            Self::SpaceAtEnd(i) => write!(
                f,
                "byte {i} is a space at the end of the line, where none may stand"
            ),
            Self::Missing(form, i) => missing_field(f, form, i),
            Self::Empty => write!(f, "the line is empty"),
            Self::NoWord(word) => no_word(f, Quoted(word)),
            Self::NetAgain => write!(f, "the net is named in line 1"),
            Self::FaultyLate => write!(f, "faulty links are named before the first event"),
        }
    }
}

fn missing_field<W: fmt::Write>(f: &mut fmt::Formatter<W>, form: Form, i: usize) -> fmt::Result {
    write!(
        f,
        "{} is missing, and the form is `{}`",
        form.name(i),
        form.text()
    )
}

fn no_word<W: fmt::Write>(f: &mut fmt::Formatter<W>, word: Quoted<'_>) -> fmt::Result {
    let words = "`net`, `id`, `faulty`, `start`, `carry` and `forge`";
    write!(f, "there is no word {word}, only {words}, in small letters")
}

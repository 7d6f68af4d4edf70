// A line of a schedule, its word and its fields.
use parts::plus;
use text::number::{Number, number_at};

// The line that begins at a place, without its line feed.
pub fn line_at(s: &[u8], at: usize) -> &[u8] {
    let rest = s.get(at..).unwrap_or(&[]);
    rest.split(|b| *b == b'\n').next().unwrap_or(&[])
}

// The line from field i on.
pub fn fields_from(line: &[u8], i: usize) -> &[u8] {
    let mut fields = line.splitn(plus(i, 1), |b| *b == b' ');
    fields.nth(i).unwrap_or(&[])
}

// Field 0 is the line's word.
pub fn field(line: &[u8], i: usize) -> &[u8] {
    line.split(|b| *b == b' ').nth(i).unwrap_or(&[])
}

// The number that a field is; 0 where it is none.
pub fn value(line: &[u8], i: usize) -> usize {
    let digits = field(line, i);
    match number_at(digits, 0) {
        Number::Value(v, next) if next == digits.len() => v as usize,
        _ => 0,
    }
}

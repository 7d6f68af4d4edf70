// Lines that say the same.
use line_fields::forms::Form;
use line_fields::line::{fields_from, line_at};
use parts::plus;

// Whether two lines have one word, and are the same from a field on.
fn alike(one: &[u8], other: &[u8], from: usize) -> bool {
    Form::of_line(one) == Form::of_line(other) && fields_from(one, from) == fields_from(other, from)
}

// The number of the first line of a schedule that is like that one, from a field on; where none is, that of the last line tried. As many
// lines are tried as the schedule has bytes, and those behind its end are empty.
pub fn first_alike(s: &[u8], line: &[u8], from: usize) -> usize {
    let mut next: usize = 0;
    for k in 1..=s.len() {
        let one = line_at(s, next);
        if alike(one, line, from) {
            return k;
        }
        next = plus(plus(next, one.len()), 1);
    }
    s.len()
}

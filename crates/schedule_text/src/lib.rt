// The lines of a schedule's header as they stand, and what is told behind the lines: what waits and the slots of each base, or why a line
// is refused.

#![tactic(auto)]

pub mod refused;
pub mod slots;
pub mod waits;

use header::read_header;
use line_trace::line::show_line;
use net::Header;
use parts::plus;

// Every line that ends before a place.
fn show_lines(out: &impl Print, s: &[u8], end: usize) {
    let mut number: usize = 1;
    for ended in s.get(..end).unwrap_or(s).split_inclusive(|b| *b == b'\n') {
        if let Some(line) = ended.strip_suffix(b"\n") {
            show_line(out, number, line);
        }
        number = plus(number, 1);
    }
}

// The header, its lines shown up to one that is refused.
pub fn show_header(out: &impl Print, schedule: &[u8]) -> Header {
    let header = read_header(schedule);
    show_lines(out, schedule, header.at);
    header
}

// Runs the reader and the writer on the vectors of standard input, a line each, and prints what they answer:
//     r N HEX                  a burst read in a net of N bases: the check's number, the body, the reading
//     w N KIND ROOM ID ..      a message written into an output of ROOM bytes, each 0xee before
//     t N KIND NEXT ROOM ID .. two frames of the same identifiers
// Any other line is printed as it is. The vectors and the file stdout were laid out by hand from document 01.

#![tactic(auto)]

mod line;
mod show;

use crate::line::{count, small};
use input::failure::say_failed;
use input::read_input;
use line_fields::line::field;
use parts::part;

fn main(rt: HostRuntime) {
    let mut text = [0u8; 65536];
    match read_input(&mut rt.stdin(), &mut text) {
        Err(why) => say_failed(&rt.stderr(), b"frame_vectors: reading standard input", why),
        Ok(length) => all(&rt, &text[..length]),
    }
}

fn all(out: &impl Print, text: &[u8]) {
    for line in text.split_inclusive(|b| *b == b'\n') {
        vector(out, line.strip_suffix(b"\n").unwrap_or(line));
    }
}

fn vector(out: &impl Print, line: &[u8]) {
    match line.first() {
        Some(b'r') => reads(out, line),
        Some(b'w') => writes(out, line),
        Some(b't') => writes_two(out, line),
        _ => {
            let _ = out.write_all(line);
            let _ = out.write_all(b"\n");
        }
    }
}

fn reads(out: &impl Print, line: &[u8]) {
    let digits = field(line, 2);
    let bytes = line::hex_field(digits);
    show::reading(out, count(line, 1), part(&bytes, 0, digits.len() / 2))
}

fn writes(out: &impl Print, line: &[u8]) {
    let ids = line::ids_from(line, 4);
    let mut output = [0xeeu8; line::BYTES];
    show::written(
        out,
        count(line, 1),
        small(line, 2),
        line::first(&ids, line::behind_fields(line, 4)),
        line::room(&mut output, count(line, 3)),
    )
}

fn writes_two(out: &impl Print, line: &[u8]) {
    let ids = line::ids_from(line, 5);
    let mut output = [0xeeu8; line::BYTES];
    show::two(
        out,
        small(line, 2),
        small(line, 3),
        small(line, 1),
        line::first(&ids, line::behind_fields(line, 5)),
        line::room(&mut output, count(line, 4)),
    )
}

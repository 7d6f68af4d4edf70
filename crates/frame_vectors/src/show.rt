// What a call answers, a line each.
use message_text::message::first_identifiers;
use reader::Reading;
use std::fmt;
use writer::Written;

// Bytes in hexadecimal.
#[derive(Clone, Copy)]
struct HexDigits<'a>(&'a [u8]);

impl fmt::Display for HexDigits<'_> {
    fn fmt<W: fmt::Write>(&self, f: &mut fmt::Formatter<W>) -> fmt::Result {
        write!(f, "[")?;
        for b in self.0 {
            write!(f, "{b:02x}")?;
        }
        write!(f, "]")
    }
}

// The number of the check, the body, and the reading, of a burst in a net of n bases.
pub(crate) fn reading(out: &impl Print, n: usize, burst: &[u8]) {
    let body = stretch::stretch(n, burst);
    let _ = print!(out; "{} {} ", bursts::check(n, burst), HexDigits(body));
    match reader::read(n, burst) {
        Reading::Message { kind, count, start } => {
            let ids = decoding::id_array(body);
            let _ = println!(out;
                "kind {kind} at {start}{}",
                first_identifiers(&ids, count as usize)
            );
        }
        Reading::Refused(r) => {
            let _ = println!(out; "refused {r}");
        }
    }
}

// The answer of a write, and the output after it.
pub(crate) fn written(out: &impl Print, n: usize, kind: u8, ids: &[u32], output: &mut [u8]) {
    match writer::write(n, kind, ids, output) {
        Written::Frame(size) => {
            let _ = print!(out; "length {} slots {} ", size.length, size.slots);
        }
        Written::Refused(r) => {
            let _ = print!(out; "refused {r} ");
        }
    }
    let _ = println!(out; "{}", HexDigits(output));
}

// The sizes of two frames, and the output after them.
pub(crate) fn two(out: &impl Print, kind: u8, next: u8, n: u8, ids: &[u32], output: &mut [u8]) {
    let sizes = two_frames::put_two(kind, next, n, ids, output);
    let _ = print!(out; "lengths {} {} ", sizes.front.length, sizes.next.length);
    let _ = println!(out;
        "slots {} {} {}",
        sizes.front.slots,
        sizes.next.slots,
        HexDigits(output)
    );
}

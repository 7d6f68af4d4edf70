// What the trailer of a burst that is refused says, where its number is about the trailer.
use limits::frame_bytes;
use limits::refusal::{BACK_DISTANCE, COUNT, KIND};
use std::fmt;

#[derive(Clone, Copy)]
pub(crate) struct Trailer<'a> {
    pub(crate) refusal: u8,
    pub(crate) burst: &'a [u8],
}

impl fmt::Display for Trailer<'_> {
    fn fmt<W: fmt::Write>(&self, f: &mut fmt::Formatter<W>) -> fmt::Result {
        let [.., kind, count, high, low] = self.burst else {
            return Ok(());
        };
        match self.refusal {
            KIND => write!(f, " (kind {kind})"),
            COUNT => write!(f, " (kind {kind}, count {count})"),
            BACK_DISTANCE => distance(
                f,
                u16::from_be_bytes([*high, *low]),
                *count,
                self.burst.len(),
            ),
            _ => Ok(()),
        }
    }
}

// And what it should be; or the burst's length, which it exceeds.
fn distance<W: fmt::Write>(
    f: &mut fmt::Formatter<W>,
    back: u16,
    count: u8,
    length: usize,
) -> fmt::Result {
    let right = frame_bytes(count);
    if back as usize == right {
        return write!(
            f,
            " (back distance {back}, and the burst has {length} bytes)"
        );
    }
    write!(f, " (back distance {back}, where {right} belongs)")
}

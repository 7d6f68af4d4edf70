// What an editor makes of a text or puts before it.
use crate::FormCause;

// Whether of the first four bytes the first and the third are zero and the others are not, or the other way round.
fn is_wide(bytes: &[u8]) -> bool {
    match bytes {
        [0, b, 0, d, ..] => *b != 0 && *d != 0,
        [a, 0, c, 0, ..] => *a != 0 && *c != 0,
        _ => false,
    }
}

// Of the line that begins at a place, behind the two bytes of its mark or without one. Where it is empty, the next one tells.
pub(crate) fn encoding<'a>(s: &[u8], at: usize) -> Option<FormCause<'a>> {
    let rest = s.get(at..)?;
    if rest.starts_with(b"\xef\xbb\xbf") {
        return Some(FormCause::ByteOrderMark);
    }
    if is_wide(rest) || rest.get(2..).is_some_and(is_wide) {
        return Some(FormCause::Utf16);
    }
    None
}

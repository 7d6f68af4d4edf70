// The fields of a line of vectors, for numbers up to the largest and for more bytes than a burst may have.
use hex_bytes::hex_array;
use limits::{LIST_ROOM, LONGEST_BURST};
use line_fields::line::field;
use line_fields::spaces::spaces;
use parts::plus;

// Room for more than a burst may have, and for more identifiers than a list.
pub(crate) const BYTES: usize = 2 * LONGEST_BURST;

pub(crate) const IDENTIFIERS: usize = 2 * LIST_ROOM;

// A number with one digit more; the largest number where that does not fit.
fn with_digit(value: usize, sign: u8) -> usize {
    if usize::MAX / 10 <= value {
        return usize::MAX;
    }
    value * 10 + (sign % 16 % 10) as usize
}

// The number in a field.
pub(crate) fn count(line: &[u8], i: usize) -> usize {
    field(line, i)
        .iter()
        .fold(0, |value, sign| with_digit(value, *sign))
}

pub(crate) fn small(line: &[u8], i: usize) -> u8 {
    (count(line, i) % 256) as u8
}

fn identifier_field(line: &[u8], i: usize) -> u32 {
    (count(line, i) % 4294967296) as u32
}

// Two digits a byte, zeros behind.
pub(crate) fn hex_field(digits: &[u8]) -> [u8; BYTES] {
    let mut bytes = [0u8; BYTES];
    for (i, byte) in bytes.iter_mut().enumerate() {
        *byte = hex_array(digits, 2 * i, 1)[0];
    }
    bytes
}

// How many fields there are from one on.
pub(crate) fn behind_fields(line: &[u8], from: usize) -> usize {
    plus(spaces(line), 1).saturating_sub(from)
}

// The identifiers from a field on, zeros behind them.
pub(crate) fn ids_from(line: &[u8], from: usize) -> [u32; IDENTIFIERS] {
    let mut ids = [0u32; IDENTIFIERS];
    for (i, g) in ids.iter_mut().enumerate() {
        *g = identifier_field(line, plus(from, i));
    }
    ids
}

pub(crate) fn first(s: &[u32], k: usize) -> &[u32] {
    s.get(..k).unwrap_or(s)
}

pub(crate) fn room(s: &mut [u8], k: usize) -> &mut [u8] {
    if k <= s.len() { &mut s[..k] } else { s }
}

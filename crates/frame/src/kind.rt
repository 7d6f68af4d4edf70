// What a kind of message holds, and numbers 8 and 9.
ghost use Rattle.std.specs.Prelude.{◌≡◌};
ghost use Rattle.limits.specs.Limits.{frame_bytes};
ghost use Rattle.frame.specs.Message.{shape_of, length_of};
ghost use Rattle.frame.specs.Reading.{kind_refusal};

use limits::{frame_bytes, refusal};

// In place of a kind, where there is no message.
pub const NO_KIND: u8 = 0;

pub const ANNOUNCE: u8 = 1;

pub const VERIFY: u8 = 2;

pub const CORRECT_FINAL: u8 = 3;

pub const VERIFY_FINAL: u8 = 4;

// The count of identifiers and the frame's length, for a kind that there is.
#[derive(Clone, Copy)]
pub enum Shape {
    Known { count: usize, length: usize },
    Unknown,
}

fn holding(count: u8) -> Shape
    ensures { result ≡ Shape.Known count (frame_bytes count) }
{
    Shape::Known {
        count: count as usize,
        length: frame_bytes(count),
    }
}

// The one place that decides by the kind how many identifiers a message holds and how long its frame is.
pub fn shape_of(kind: u8, n: u8) -> Shape
    ensures { result ≡ shape_of kind n }
{
    match kind {
        ANNOUNCE => holding(1),
        VERIFY => holding(1),
        CORRECT_FINAL => holding(n),
        VERIFY_FINAL => holding(n),
        _ => Shape::Unknown,
    }
}

// The frame's length, 0 for a kind that there is not.
pub fn length_of(kind: u8, n: u8) -> usize
    ensures { result ≡ length_of kind n }
{
    match shape_of(kind, n) {
        Shape::Known { count: _, length } => length,
        Shape::Unknown => 0,
    }
}

// Numbers 8 and 9 of a message in a net of n bases, 0 for none.
pub fn kind_refusal(kind: u8, count: usize, n: u8) -> u8
    ensures { result ≡ kind_refusal n kind count }
{
    let Shape::Known {
        count: held,
        length: _,
    } = shape_of(kind, n)
    else {
        return refusal::KIND;
    };
    if count != held {
        return refusal::COUNT;
    }
    0
}

// One base of a net as the program keeps it: its record, its broadcasts in the order written, and which broadcasts of the others
// were carried to it. specs/Node.antt says what it stands for.

#![tactic(auto)]

pub mod log;

use limits::{LONGEST_FRAME, MOST_BASES};
use protocol::Base;

// "A base broadcasts at most n + 3 in its life."
pub const MOST_BROADCASTS: usize = MOST_BASES + 3;

// One mark for each broadcast of each base.
pub const MARKS: usize = MOST_BASES * MOST_BROADCASTS;

#[derive(Clone, Copy)]
pub struct Frame {
    pub len: usize,
    // The frame, zeros behind it.
    pub bytes: [u8; LONGEST_FRAME],
}

#[derive(Clone, Copy)]
pub struct Node {
    pub base: Base,
    // How many broadcasts there are, and those.
    pub count: usize,
    pub frames: [Frame; MOST_BROADCASTS],
    // 1 where a broadcast was carried to this base: those of base 1, then those of base 2, and so on.
    pub heard: [u8; MARKS],
}

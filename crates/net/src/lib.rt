// A whole net as the program keeps it: one node a base, the links that are faulty, and how far the net's schedule is read.
// specs/Abstraction.antt says which net of document 01 it stands for.

#![tactic(auto)]

pub mod made;
pub mod nodes;

use faulty_links::Faulty;
use limits::MOST_BASES;
use node::Node;

// The header of a schedule, as far as it is read.
#[derive(Clone, Copy)]
pub struct Header {
    pub n: u8,
    pub t: u8,
    // The identifier of base b stands at b - 1, zero for none yet.
    pub ids: [u32; MOST_BASES],
    pub faulty: Faulty,
    // Where the next line begins, and its number.
    pub at: usize,
    pub line: usize,
    // The number by which that line is turned down; 0 for none.
    pub refusal: u8,
}

#[derive(Clone, Copy)]
pub struct StoredNet {
    pub n: u8,
    pub t: u8,
    pub faulty: Faulty,
    // Base b stands at b - 1.
    pub nodes: [Node; MOST_BASES],
    // As in a header.
    pub at: usize,
    pub line: usize,
    pub refusal: u8,
}

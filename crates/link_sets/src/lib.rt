// A link by the numbers of its two bases. In specs/ the links of a net in order, every set of at most t of them with its number, and that
// each set is there once.

#![tactic(auto)]

// The lower number first, the higher second.
#[repr(C)]
#[derive(Clone, Copy)]
pub struct LinkPair {
    pub lower: u8,
    pub higher: u8,
}

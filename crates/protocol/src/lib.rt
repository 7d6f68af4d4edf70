// What a base holds, and what a call answers. specs/ has document 01's rules for them.

#![tactic(auto)]

use limits::{LIST_ROOM, MOST_BASES, MOST_LINKS};

// What is held of one link. Every byte belongs to a field, here and in a base: two records that are equal are equal byte for byte.
#[repr(C)]
#[derive(Clone, Copy)]
pub struct Link {
    // The one Announce identifier accepted there, or zero.
    pub announce: u32,
    // The Verify identifiers accepted there, in order of acceptance, zeros behind.
    pub verifies: [u32; LIST_ROOM],
    // The list of the vector message held there, zeros behind.
    pub list: [u32; MOST_BASES],
    pub verify_count: u16,
    // The kind of the vector message held there: 3, 4, or zero for none.
    pub held: u16,
}

// The states of a base. The last two mean stopped.
pub const IDLE: u8 = 0;

pub const RUNNING: u8 = 1;

pub const PRIME: u8 = 2;

pub const SECONDARY: u8 = 3;

#[repr(C)]
#[derive(Clone, Copy)]
pub struct Base {
    pub n: u8,
    pub t: u8,
    pub state: u8,
    // Whether a Verify-Final was sent: 1, or 0.
    pub sent: u8,
    // Its own identifier.
    pub own: u32,
    // All zero until the base has stopped.
    pub final_list: [u32; MOST_BASES],
    pub links: [Link; MOST_LINKS],
}

// What a call answers: accepted or discarded with the length of each frame that it broadcast, zero for none, and the slots of those that
// are its own and of those that it relays; or the number by which it was turned down.
#[derive(Clone, Copy)]
pub enum Outcome {
    Accepted {
        first: usize,
        second: usize,
        third: usize,
        own: usize,
        relayed: usize,
    },
    Discarded {
        first: usize,
        second: usize,
        third: usize,
        own: usize,
        relayed: usize,
    },
    Refused(u8),
}

// What the leader call answers.
#[derive(Clone, Copy)]
pub enum Leader {
    Is(u32),
    NotStopped,
    Refused(u8),
}

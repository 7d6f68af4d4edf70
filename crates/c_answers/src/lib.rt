// What the calls answer, as numbers: a function that C calls returns no enum.

#![tactic(auto)]

ghost use Rattle.std.specs.Prelude.{◌≡◌};
ghost use Rattle.c_answers.specs.Numbers.{in_numbers, outcome_numbers, leader_numbers, written_numbers};

use protocol::{Leader, Outcome};
use writer::Written;

// How a start or an arrival ended, and whether a base names a leader.
pub const REFUSED: u8 = 0;

pub const ACCEPTED: u8 = 1;

pub const DISCARDED: u8 = 2;

pub const LEADER_REFUSED: u8 = 0;

pub const LEADER_NAMED: u8 = 1;

pub const NOT_STOPPED: u8 = 2;

// Of a start or an arrival.
#[repr(C)]
#[derive(Clone, Copy)]
pub struct CallAnswer {
    // REFUSED, ACCEPTED or DISCARDED.
    pub outcome: u8,
    // The number by which it was turned down, or zero.
    pub refusal: u8,
    // The length of each frame broadcast, zero for none.
    pub first: usize,
    pub second: usize,
    pub third: usize,
    // The slots of the frames that are its own, and of those that it relays.
    pub own: usize,
    pub relayed: usize,
}

// Of the leader call.
#[repr(C)]
#[derive(Clone, Copy)]
pub struct LeaderAnswer {
    // LEADER_REFUSED, LEADER_NAMED or NOT_STOPPED.
    pub outcome: u8,
    pub refusal: u8,
    pub leader: u32,
}

// Of writing a frame.
#[repr(C)]
#[derive(Clone, Copy)]
pub struct WriteAnswer {
    pub refusal: u8,
    pub length: usize,
    pub slots: usize,
}

// Of a call that was not turned down.
fn in_numbers(
    outcome: u8,
    first: usize,
    second: usize,
    third: usize,
    own: usize,
    relayed: usize,
) -> CallAnswer
    ensures { result ≡ in_numbers outcome first second third own relayed }
{
    CallAnswer {
        outcome,
        refusal: 0,
        first,
        second,
        third,
        own,
        relayed,
    }
}

pub fn outcome_numbers(outcome: Outcome) -> CallAnswer
    ensures { result ≡ outcome_numbers outcome }
{
    match outcome {
        Outcome::Accepted {
            first,
            second,
            third,
            own,
            relayed,
        } => in_numbers(ACCEPTED, first, second, third, own, relayed),
        Outcome::Discarded {
            first,
            second,
            third,
            own,
            relayed,
        } => in_numbers(DISCARDED, first, second, third, own, relayed),
        Outcome::Refused(number) => CallAnswer {
            outcome: REFUSED,
            refusal: number,
            first: 0,
            second: 0,
            third: 0,
            own: 0,
            relayed: 0,
        },
    }
}

pub fn leader_numbers(leader: Leader) -> LeaderAnswer
    ensures { result ≡ leader_numbers leader }
{
    match leader {
        Leader::Is(g) => LeaderAnswer {
            outcome: LEADER_NAMED,
            refusal: 0,
            leader: g,
        },
        Leader::NotStopped => LeaderAnswer {
            outcome: NOT_STOPPED,
            refusal: 0,
            leader: 0,
        },
        Leader::Refused(number) => LeaderAnswer {
            outcome: LEADER_REFUSED,
            refusal: number,
            leader: 0,
        },
    }
}

pub fn written_numbers(written: Written) -> WriteAnswer
    ensures { result ≡ written_numbers written }
{
    match written {
        Written::Frame(size) => WriteAnswer {
            refusal: 0,
            length: size.length,
            slots: size.slots,
        },
        Written::Refused(number) => WriteAnswer {
            refusal: number,
            length: 0,
            slots: 0,
        },
    }
}

// The sizes and limits of document 01, as constants. specs/Limits.antt states the same figures as definitions, which the contracts
// cite: where the two differ, no contract of a caller is proved.

#![tactic(auto)]

pub mod refusal;

ghost use Rattle.std.specs.Prelude.{◌≡◌};
ghost use Rattle.limits.specs.Limits.{frame_bytes, frame_slots, most_faulty};
ghost use Rattle.limits.specs.Refusals.{net_refusal, size_refusal, own_refusal};

pub const FEWEST_BASES: usize = 2;

pub const MOST_BASES: usize = 16;

// Links that may be faulty in the largest net: `most_faulty` of it.
pub const MOST_FAULTY: usize = (MOST_BASES - 2) / 2;

// Links of one base, and the room of a link's list.
pub const MOST_LINKS: usize = MOST_BASES - 1;

pub const LIST_ROOM: usize = MOST_BASES + 1;

// Bytes of an identifier, and of the trailer behind a frame's identifiers.
pub const IDENTIFIER_BYTES: usize = 4;

pub const TRAILER_BYTES: usize = 4;

// Bytes of frames, outputs and bursts.
pub const LONGEST_FRAME: usize = MOST_BASES * IDENTIFIER_BYTES + TRAILER_BYTES;

pub const OUTPUT_ROOM: usize = 2 * LONGEST_FRAME;

pub const SHORTEST_BURST: usize = IDENTIFIER_BYTES + TRAILER_BYTES;

pub const LONGEST_BURST: usize = LONGEST_FRAME + 64;

// Bytes of a slot of airtime.
pub const SLOT_BYTES: usize = 8;

// Bytes that a line of a schedule can forge, and bytes of a schedule.
pub const LONGEST_FORGERY: usize = 132;

pub const LONGEST_SCHEDULE: usize = 65536;

// Bases of a net whose sets of faulty links are listed, and links that may be faulty there.
pub const SMALL_BASES: usize = 6;

pub const SMALL_FAULTY: usize = (SMALL_BASES - 2) / 2;

// The length of a frame of so many identifiers, which is its back distance too.
pub fn frame_bytes(count: u8) -> usize
    ensures { result ≡ frame_bytes count }
{
    IDENTIFIER_BYTES * (count as usize) + TRAILER_BYTES
}

// The slots of a frame of so many bytes: one for each 8 bytes begun.
pub fn frame_slots(length: usize) -> usize
    ensures { result ≡ frame_slots length }
{
    let whole = length / SLOT_BYTES;
    if length % SLOT_BYTES == 0 {
        return whole;
    }
    whole + 1
}

// Number 1, or 0 where n is a number of bases that a net can have.
pub fn net_refusal(n: usize) -> u8
    ensures { result ≡ net_refusal n }
{
    if n < FEWEST_BASES {
        return refusal::BASES;
    }
    if MOST_BASES < n {
        return refusal::BASES;
    }
    0
}

// The limit of t in a net of n bases, (n - 2) / 2 rounded down.
pub fn most_faulty(n: usize) -> usize
    ensures { result ≡ most_faulty n }
{
    if n < 2 {
        return 0;
    }
    (n - 2) / 2
}

// Numbers 1 and 2, 0 for none.
pub fn size_refusal(n: usize, t: usize) -> u8
    ensures { result ≡ size_refusal n t }
{
    let net = net_refusal(n);
    if net != 0 {
        return net;
    }
    if most_faulty(n) < t {
        return refusal::FAULTY_LIMIT;
    }
    0
}

// Number 3, 0 for none.
pub fn own_refusal(own: u32) -> u8
    ensures { result ≡ own_refusal own }
{
    if own == 0 {
        return refusal::OWN_IDENTIFIER;
    }
    0
}

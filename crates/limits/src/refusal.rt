// The numbers of document 01's "Turning calls down", by name. docs/RULES.md has each with its meaning and the calls that give it.

// n is not 2 to 16.
pub const BASES: u8 = 1;

// t is above its limit.
pub const FAULTY_LIMIT: u8 = 2;

// The own identifier is zero.
pub const OWN_IDENTIFIER: u8 = 3;

// The record is not sound.
pub const RECORD: u8 = 4;

// The link number is not 1 to n - 1.
pub const LINK: u8 = 5;

// The output is shorter than 136 bytes.
pub const OUTPUT: u8 = 6;

// The burst is shorter than 8 or longer than 132 bytes.
pub const BURST: u8 = 7;

// The kind is not 1 to 4.
pub const KIND: u8 = 8;

// The count is not 1 for kinds 1 and 2, or not n for 3 and 4.
pub const COUNT: u8 = 9;

// The back distance is not 4 × count + 4, or exceeds the burst.
pub const BACK_DISTANCE: u8 = 10;

// An identifier in the body is zero.
pub const ZERO_IDENTIFIER: u8 = 11;

// A list is not strictly ascending.
pub const NOT_ASCENDING: u8 = 12;

// A line is missing or breaks the form, or the schedule exceeds 65,536 bytes.
pub const FORM: u8 = 13;

// Two bases have one identifier.
pub const SAME_IDENTIFIER: u8 = 14;

// More than t links are named faulty.
pub const FAULTY_LINKS: u8 = 15;

// A carry names a message not yet broadcast.
pub const NOT_BROADCAST: u8 = 16;

// A carry repeats one already made in that direction on a good link.
pub const CARRIED_BEFORE: u8 = 17;

// A forgery is put on a good link.
pub const FORGED_ON_GOOD: u8 = 18;

// The net has more than 6 bases.
pub const LARGE_NET: u8 = 19;

// The number is past the last set.
pub const SET_NUMBER: u8 = 20;

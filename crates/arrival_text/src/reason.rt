// Why a message is discarded.
use certification::certifies;
use frame::kind::{ANNOUNCE, CORRECT_FINAL, VERIFY};
use held::has_announce;
use held_lists::holds_verify;
use protocol::{Base, Link, PRIME};

const FULL: &str = "the link's list is full";

fn of_announce(base: Base, link: Link, g: u32) -> &'static str {
    if has_announce(link) {
        return "the link has an Announce";
    }
    if g == base.own {
        return "the identifier is its own";
    }
    if certifies(base, g) {
        return "the identifier is certified";
    }
    FULL
}

fn of_verify(link: Link, g: u32) -> &'static str {
    if holds_verify(link, g) {
        return "the link holds that Verify";
    }
    FULL
}

// By what the link holds, for a message of that kind with g as its first identifier.
pub(crate) fn discarded_for(base: Base, held: Link, kind: u8, g: u32) -> &'static str {
    if PRIME <= base.state {
        return "the base has stopped";
    }
    match kind {
        ANNOUNCE => of_announce(base, held, g),
        VERIFY => of_verify(held, g),
        CORRECT_FINAL => "the link holds a Correct-Final",
        _ => "the link holds a vector message",
    }
}

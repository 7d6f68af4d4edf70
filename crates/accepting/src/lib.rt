// What a message does to the link on which it arrives: it is accepted, and the link holds it, or it is discarded.

#![tactic(auto)]

ghost use Rattle.std.specs.Prelude.{◌≡◌};
ghost use Rattle.accepting.specs.Accepting.{on_announce_link, on_verify_link, on_vector_link, accepted_on};

use frame::kind::{ANNOUNCE, CORRECT_FINAL, VERIFY, VERIFY_FINAL};
use held::{HELD_CORRECT_FINAL, HELD_NOTHING, HELD_VERIFY_FINAL, has_announce, is_full};
use held_lists::holds_verify;
use limits::{LIST_ROOM, MOST_BASES};
use protocol::Link;

// Whether the message is accepted, and the link then; as it was where the message is discarded.
#[derive(Clone, Copy)]
pub struct Accepted {
    pub accepted: bool,
    pub link: Link,
}

fn announced(n: u8, certified: bool, link: Link, g: u32) -> Accepted
    ensures { result ≡ on_announce_link n certified link g }
{
    if has_announce(link) {
        return Accepted {
            accepted: false,
            link,
        };
    }
    if certified {
        return Accepted {
            accepted: false,
            link,
        };
    }
    if is_full(n, link) {
        return Accepted {
            accepted: false,
            link,
        };
    }
    let mut next = link;
    next.announce = g;
    Accepted {
        accepted: true,
        link: next,
    }
}

// A Verify that the link has no place for is counted and not stored: no sound link that is not full lacks the place.
fn verified(n: u8, link: Link, g: u32) -> Accepted
    ensures { result ≡ on_verify_link n link g }
{
    if holds_verify(link, g) {
        return Accepted {
            accepted: false,
            link,
        };
    }
    if is_full(n, link) {
        return Accepted {
            accepted: false,
            link,
        };
    }
    let mut next = link;
    let at = link.verify_count as usize;
    next.verify_count = link.verify_count + 1;
    if LIST_ROOM <= at {
        return Accepted {
            accepted: true,
            link: next,
        };
    }
    next.verifies[at] = g;
    Accepted {
        accepted: true,
        link: next,
    }
}

fn listed(discarded: bool, kind: u16, link: Link, v: [u32; MOST_BASES]) -> Accepted
    ensures { result ≡ on_vector_link discarded kind link v }
{
    if discarded {
        return Accepted {
            accepted: false,
            link,
        };
    }
    let mut next = link;
    next.held = kind;
    next.list = v;
    Accepted {
        accepted: true,
        link: next,
    }
}

// A message of a kind and its identifiers arrives on a link of a base in a net of n; its first identifier is certified there or not. A kind
// that there is not is discarded.
pub fn accept(n: u8, certified: bool, link: Link, kind: u8, ids: [u32; MOST_BASES]) -> Accepted
    ensures { result ≡ accepted_on n certified link kind ids }
{
    let g = ids[0];
    match kind {
        ANNOUNCE => announced(n, certified, link, g),
        VERIFY => verified(n, link, g),
        CORRECT_FINAL => listed(
            link.held == HELD_CORRECT_FINAL,
            HELD_CORRECT_FINAL,
            link,
            ids,
        ),
        VERIFY_FINAL => listed(link.held != HELD_NOTHING, HELD_VERIFY_FINAL, link, ids),
        _ => Accepted {
            accepted: false,
            link,
        },
    }
}

// A message at a base that runs, or that has just started: whether it is accepted, and what the base then decides. The record is read here,
// and nothing is written. A place past the last link stands for the last.

#![tactic(auto)]

ghost use Rattle.std.specs.Prelude.{◌≡◌};
ghost use Rattle.protocol.specs.Steps.{with_link};
ghost use Rattle.protocol.specs.Steps.Cases.{begun};
ghost use Rattle.settling.specs.Settling.{within_links, accepted_at, decided_at};

use accepting::{Accepted, accept};
use certification::certifies;
use deciding::{Decision, decide};
use frame::kind::NO_KIND;
use limits::{MOST_BASES, MOST_LINKS};
use lists::least;
use protocol::{Base, Link, RUNNING};

// Whether a message is accepted at a link, and the link then.
pub fn accepted_at(base: Base, i: usize, kind: u8, ids: [u32; MOST_BASES]) -> Accepted
    ensures { result ≡ accepted_at base (within_links i) kind ids }
{
    let at = least(i, MOST_LINKS - 1);
    let link = base.links[at];
    let g = ids[0];
    accept(base.n, certifies(base, g), link, kind, ids)
}

fn running_with(base: Base, i: usize, link: Link) -> Base
    ensures { result ≡ with_link (begun base) (within_links i) link }
{
    let at = least(i, MOST_LINKS - 1);
    let mut next = base;
    next.state = RUNNING;
    next.links[at] = link;
    next
}

// What the base decides once the link holds the message; nothing where the message is discarded.
pub fn decided(
    base: Base,
    i: usize,
    accepted: Accepted,
    kind: u8,
    ids: [u32; MOST_BASES],
) -> Decision
    ensures { result ≡ decided_at base (within_links i) accepted kind ids }
{
    if !accepted.accepted {
        let list = base.final_list;
        return Decision {
            first: NO_KIND,
            sent: base.sent,
            stops: false,
            state: RUNNING,
            final_list: list,
        };
    }
    let link = accepted.link;
    decide(running_with(base, i, link), kind, ids)
}

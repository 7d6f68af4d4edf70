// A carry and a forgery, each on the nodes that it names. What is turned down, by 16 to 18 or by the base's call, leaves the base
// that it would reach as it was. A start is the call alone (crate `node_calls`). Crate `representation` has what these do to the net.

#![tactic(auto)]

ghost use Rattle.std.specs.Prelude.{◌≡◌};
ghost use Rattle.faulty_links.specs.Faulty.{pairs_of};
ghost use Rattle.events.specs.Events.{carried_to, forged_to};

use carry_refusals::carry_refusal;
use faulty_links::{Faulty, is_good};
use limits::refusal;
use node::Node;
use node::log::frame_at;
use node_arrivals::{hear_burst, hear_frame};
use numbering::link_to;

// The base that an event reaches, as the event left it, beside 16, 17 or 18 where that turned the event down, else 0.
#[derive(Clone, Copy)]
pub struct Reached {
    pub refusal: u8,
    pub node: Node,
}

// a's k-th broadcast arrives at b.
pub fn carry(sender: Node, receiver: Node, faulty: Faulty, a: u8, b: u8, k: usize) -> Reached
    ensures { result ≡ carried_to sender receiver (pairs_of faulty) a b k }
{
    let refusal = carry_refusal(sender, receiver, faulty, a, b, k);
    if refusal != 0 {
        return Reached {
            refusal,
            node: receiver,
        };
    }
    Reached {
        refusal: 0,
        node: hear_frame(receiver, link_to(b, a), frame_at(sender, k), a, k),
    }
}

// A burst arrives at b as if from a.
pub fn forge(receiver: Node, faulty: Faulty, a: u8, b: u8, burst: &[u8]) -> Reached
    ensures { result ≡ forged_to receiver (pairs_of faulty) a b burst.now }
{
    if is_good(faulty, a, b) {
        return Reached {
            refusal: refusal::FORGED_ON_GOOD,
            node: receiver,
        };
    }
    Reached {
        refusal: 0, // "refusals of its burst leave the schedule running"
        node: hear_burst(receiver, link_to(b, a), burst, a, 0),
    }
}

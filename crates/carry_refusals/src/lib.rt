// By which number a carry is turned down before it reaches its base.

#![tactic(auto)]

ghost use Rattle.std.specs.Prelude.{◌≡◌};
ghost use Rattle.faulty_links.specs.Faulty.{pairs_of};
ghost use Rattle.carry_refusals.specs.Carry.{carry_refusal};

use faulty_links::{Faulty, is_good};
use limits::refusal;
use marks::heard_by;
use node::Node;
use node::log::broadcasts;

// Numbers 16 and 17, 0 for none.
pub fn carry_refusal(sender: Node, receiver: Node, faulty: Faulty, a: u8, b: u8, k: usize) -> u8
    ensures { result ≡ carry_refusal sender receiver (pairs_of faulty) a b k }
{
    if k == 0 {
        return refusal::NOT_BROADCAST;
    }
    if broadcasts(sender) < k {
        return refusal::NOT_BROADCAST;
    }
    if is_good(faulty, a, b) {
        if heard_by(receiver, a, k) {
            return refusal::CARRIED_BEFORE;
        }
    }
    0
}

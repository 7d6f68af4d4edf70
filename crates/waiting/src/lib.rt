// What waits: broadcasts and bases at the other end of a good link to which they were not carried.

#![tactic(auto)]

ghost use Rattle.std.specs.Prelude.{suc, ◌≤◌, ◌<◌, ◌*◌, ◌≡◌};
ghost use Rattle.limits.specs.Limits.{most_bases};
ghost use Rattle.counting.specs.Sums.{sum};
ghost use Rattle.node.specs.Node.{most_broadcasts};
ghost use Rattle.protocol.specs.Net.{waiting_from};
ghost use Rattle.protocol.specs.Net as Nets;
ghost use Rattle.faulty_links.specs.Faulty.{pairs_of};
ghost use Rattle.net.specs.Abstraction.{faulty_of, net_of, size};
ghost use Rattle.waiting.specs.Waits.{waiting_between};

use faulty_links::{Faulty, is_good};
use limits::MOST_BASES;
use lists::least;
use marks::unheard;
use net::StoredNet;
use node::Node;
use node::log::broadcasts;

// Broadcasts of a that wait to be carried to b.
fn waiting_between(sender: Node, receiver: Node, faulty: Faulty, a: u8, b: u8) -> usize
    ensures { (result ≡ waiting_between sender receiver (pairs_of faulty) a b) × (result ≤ most_broadcasts) }
{
    if a == b {
        return 0;
    }
    if !is_good(faulty, a, b) {
        return 0;
    }
    unheard(receiver, a, broadcasts(sender))
}

// Broadcasts of the base at place a that wait.
fn waiting_from(net: StoredNet, a: usize) -> usize
    requires { a < most_bases }
    ensures { (result ≡ sum (size net) (λ b. waiting_from (faulty_of net) (net_of net) (suc a) (suc b)))
        × (result ≤ most_bases * most_broadcasts) }
{
    let n = least(net.n as usize, MOST_BASES);
    let sender = net.nodes[a];
    let faulty = net.faulty;
    let mut total: usize = 0;
    let mut b: usize = 0;
    while b < n {
        let receiver = net.nodes[b];
        total += waiting_between(sender, receiver, faulty, (a + 1) as u8, (b + 1) as u8);
        b += 1;
    }
    total
}

// How many pairs of a broadcast and a base wait.
pub fn waiting(net: StoredNet) -> usize
    ensures { result ≡ Nets.waiting (size net) (faulty_of net) (net_of net) }
{
    let n = least(net.n as usize, MOST_BASES);
    let mut total: usize = 0;
    let mut a: usize = 0;
    while a < n {
        total += waiting_from(net, a);
        a += 1;
    }
    total
}

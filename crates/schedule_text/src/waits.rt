// What waits, by its numbers: broadcasts that were not carried to a base at the other end of a good link.
use faulty_links::is_good;
use marks::{heard_by, unheard};
use net::StoredNet;
use net::nodes::node_at;
use node::Node;
use node::log::broadcasts;

// Those of a's first count broadcasts that base b has not heard.
fn unheard_line(out: &impl Print, receiver: Node, a: u8, b: u8, count: usize) {
    if unheard(receiver, a, count) == 0 {
        return;
    }
    let _ = print!(out; "waiting from base {a} to base {b}, by number:");
    for k in 1..=count {
        if !heard_by(receiver, a, k) {
            let _ = print!(out; " {k}");
        }
    }
    let _ = println!(out);
}

// A line for each base and each other one for which some of its broadcasts wait.
pub fn itemise(out: &impl Print, net: StoredNet) {
    for a in 1..=net.n {
        for b in 1..=net.n {
            if a != b && is_good(net.faulty, a, b) {
                unheard_line(out, node_at(net, b), a, b, broadcasts(node_at(net, a)));
            }
        }
    }
}

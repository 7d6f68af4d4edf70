// The slots of airtime that each base has taken, as its record tells them, and those of all bases.
use net::StoredNet;
use net::nodes::node_at;
use parts::plus;
use slots_taken::{Slots, slots_taken};

// `slots of base 2: own 4, relayed 1, together 5`
fn say_sums(out: &impl Print, Slots { own, relayed }: Slots) {
    let _ = println!(out;
        ": own {own}, relayed {relayed}, together {}",
        plus(own, relayed)
    );
}

fn sum_of(all: Slots, more: Slots) -> Slots {
    Slots {
        own: plus(all.own, more.own),
        relayed: plus(all.relayed, more.relayed),
    }
}

// A line for each base, and one for all of them.
pub fn say_slots_taken(out: &impl Print, net: StoredNet) {
    let mut all = Slots { own: 0, relayed: 0 };
    for b in 1..=net.n {
        let slots = slots_taken(node_at(net, b).base);
        let _ = print!(out; "slots of base {b}");
        say_sums(out, slots);
        all = sum_of(all, slots);
    }
    let _ = print!(out; "slots of all bases");
    say_sums(out, all)
}

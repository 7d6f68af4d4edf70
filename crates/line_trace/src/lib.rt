// A line of a schedule as it stands, and what its event did to the net as it was before.

#![tactic(auto)]

pub mod line;

use crate::line::show_line;
use arrival_text::Arrival;
use call_trace::{show_arrival, show_start};
use event_forms::event_line;
use hex_bytes::hex_array;
use line_fields::line::line_at;
use lines::event::Line;
use net::StoredNet;
use net::nodes::node_at;
use node::log::frame_at;
use numbering::link_to;
use parts::part;

fn base_starts(out: &impl Print, net: StoredNet, b: u8) {
    let node = node_at(net, b);
    show_start(out, b, node.base, node.count)
}

// A burst of base a at base b.
fn arrives(out: &impl Print, net: StoredNet, a: u8, b: u8, forged: bool, burst: &[u8]) {
    let node = node_at(net, b);
    let arrival = Arrival {
        from: a,
        link: link_to(b, a),
        forged,
    };
    show_arrival(out, b, node.base, node.count, arrival, burst)
}

// Broadcast k of base a.
fn carried(out: &impl Print, net: StoredNet, a: u8, b: u8, k: usize) {
    let frame = frame_at(node_at(net, a), k);
    let bytes = frame.bytes;
    arrives(out, net, a, b, false, part(&bytes, 0, frame.len))
}

// A forgery whose bytes stand in the schedule.
fn forged(out: &impl Print, s: &[u8], net: StoredNet, a: u8, b: u8, at: usize, count: usize) {
    let bytes = hex_array(s, at, count);
    arrives(out, net, a, b, true, part(&bytes, 0, count))
}

// The line that is next in the net, where it has the form of an event, and what it does.
pub fn show_event(out: &impl Print, s: &[u8], net: StoredNet) {
    let line = line_at(s, net.at);
    match event_line(net.n, s, net.at) {
        Line::Start { base, .. } => {
            show_line(out, net.line, line);
            base_starts(out, net, base)
        }
        Line::Carry {
            from,
            to,
            number,
            ..
        } => {
            show_line(out, net.line, line);
            carried(out, net, from, to, number as usize)
        }
        Line::Forge {
            from,
            to,
            at,
            count,
            ..
        } => {
            show_line(out, net.line, line);
            forged(out, s, net, from, to, at, count)
        }
        Line::Wrong => {}
    }
}

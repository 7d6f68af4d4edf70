// Why a line is refused, from what is known of the lines before it.
use causes::{RefusedLine, explain};
use event_forms::event_line;
use limits::refusal::FORM;
use lines::event::Line;
use net::nodes::node_at;
use net::{Header, StoredNet};

// How many messages the sender of the next line, a carry, has broadcast; 0 of any other line.
fn sender_broadcasts(s: &[u8], net: StoredNet) -> usize {
    match event_line(net.n, s, net.at) {
        Line::Carry { from, .. } => node_at(net, from).count,
        _ => 0,
    }
}

// Why a line of the header is refused.
pub fn explain_header(out: &impl Print, schedule: &[u8], header: Header) {
    explain(
        out,
        schedule,
        &RefusedLine {
            refusal: header.refusal,
            number: header.line,
            at: header.at,
            n: header.n as usize,
            t: header.t as usize,
            faulty: header.faulty.count,
            broadcasts: 0,
        },
    )
}

// Why a line of events is refused.
pub fn explain_event(out: &impl Print, schedule: &[u8], net: StoredNet) {
    explain(
        out,
        schedule,
        &RefusedLine {
            refusal: net.refusal,
            number: net.line,
            at: net.at,
            n: net.n as usize,
            t: net.t as usize,
            faulty: net.faulty.count,
            broadcasts: sender_broadcasts(schedule, net),
        },
    )
}

// Of a schedule that is too long, line 1 is named.
pub fn explain_length(out: &impl Print, schedule: &[u8]) {
    explain(
        out,
        schedule,
        &RefusedLine {
            refusal: FORM,
            number: 1,
            at: 0,
            n: 0,
            t: 0,
            faulty: 0,
            broadcasts: 0,
        },
    )
}

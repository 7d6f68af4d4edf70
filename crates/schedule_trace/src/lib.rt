// The lines of a schedule one after another, what each did, and behind them what waits and the slots of each base, or why a line is
// refused, told on standard output. Each line of events is taken by the replay's own step.

#![tactic(auto)]

use event_lines::line_steps;
use limits::LONGEST_SCHEDULE;
use line_trace::show_event;
use net::StoredNet;
use net::made::begun_net;
use schedule_text::refused::{explain_event, explain_header, explain_length};
use schedule_text::show_header;
use schedule_text::slots::say_slots_taken;
use schedule_text::waits::itemise;

fn step(out: &impl Print, s: &[u8], net: StoredNet) -> StoredNet {
    let after = line_steps(s, net, 1);
    if after.refusal == 0 {
        show_event(out, s, net);
    }
    after
}

// Every event, up to the schedule's end or the first line that is refused: no more lines than there are bytes.
fn steps(out: &impl Print, s: &[u8], first: StoredNet) -> StoredNet {
    let mut net = first;
    for _ in 0..s.len() {
        if net.refusal != 0 || s.len() <= net.at {
            break;
        }
        net = step(out, s, net);
    }
    net
}

// The lines, and what stands behind them.
pub fn show(out: &impl Print, schedule: &[u8]) {
    if LONGEST_SCHEDULE < schedule.len() {
        return explain_length(out, schedule);
    }
    let header = show_header(out, schedule);
    if header.refusal != 0 {
        return explain_header(out, schedule, header);
    }
    let net = steps(out, schedule, begun_net(header));
    if net.refusal != 0 {
        return explain_event(out, schedule, net);
    }
    itemise(out, net);
    say_slots_taken(out, net)
}

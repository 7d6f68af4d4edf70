// The lines of events: the next lines of a schedule on the net of the lines before them.

#![tactic(auto)]

ghost use Rattle.std.specs.Prelude.{◌≡◌, ◌≤◌, ◌*◌, length, drop};
ghost use Rattle.limits.specs.Limits.{longest_forgery};
ghost use Rattle.hexadecimal.specs.Hex.{hex_bytes};
ghost use Rattle.faulty_links.specs.Faulty.{pairs_of};
ghost use Rattle.events.specs.Events.{forged_to};
ghost use Rattle.schedule.specs.Walk.{repeat};
ghost use Rattle.stored_walk.specs.State.{HasBytes, line_after, goes_on};
ghost use Rattle.stored_walk.specs.Reaching.{reached_by};

use event_forms::event_line;
use events::Reached;
use faulty_links::Faulty;
use hex_bytes::hex_array;
use limits::MOST_BASES;
use limits::refusal::FORM;
use line_places::places_of;
use lines::event::Line;
use net::StoredNet;
use node::Node;

// A line's number has a next one: 2 to the 64th less 2 (`most_lines`, `stored_walk/specs/State`).
const MOST_LINES: usize = 2 * ((1 << 63) - 1);

// A forgery whose bytes stand in the schedule.
fn forge_bytes(
    s: &[u8],
    receiver: Node,
    faulty: Faulty,
    a: u8,
    b: u8,
    at: usize,
    count: usize,
) -> Reached
    requires { (count ≤ longest_forgery) × (2 * count ≤ length (drop at s.now)) }
    ensures { result ≡ forged_to receiver (pairs_of faulty) a b (hex_bytes count (drop at s.now)) }
{
    let bytes = hex_array(s, at, count);
    events::forge(receiver, faulty, a, b, &bytes[..count])
}

// What a line does to the base that it reaches, beside the number by which the line is turned down.
fn happen(s: &[u8], sender: Node, receiver: Node, faulty: Faulty, line: Line) -> Reached
    requires { HasBytes s.now line }
    ensures { result ≡ reached_by s.now sender receiver (pairs_of faulty) line }
{
    match line {
        Line::Start { base: _, next: _ } => {
            let answer = node_calls::start_node(receiver);
            let node = answer.node;
            Reached { refusal: 0, node }
        }
        Line::Carry {
            from,
            to,
            number,
            next: _,
        } => events::carry(sender, receiver, faulty, from, to, number as usize),
        Line::Forge {
            from,
            to,
            at,
            count,
            next: _,
        } => forge_bytes(s, receiver, faulty, from, to, at, count),
        Line::Wrong => Reached {
            refusal: FORM,
            node: receiver,
        },
    }
}

// Whether there is a line more in a text of that length.
fn goes_on(length: usize, n: u8, at: usize, line: usize, refusal: u8) -> bool
    ensures { result ≡ goes_on length n at line refusal }
{
    if refusal != 0 {
        return false;
    }
    if length <= at {
        return false;
    }
    if MOST_BASES < (n as usize) {
        return false;
    }
    line <= MOST_LINES
}

// The next lines, at most so many, on the net of the lines before them: the base that a line reaches is stored, or the line is turned down.
// The net is changed in its place, so that no line copies it.
pub fn line_steps(s: &[u8], net: StoredNet, most: usize) -> StoredNet
    ensures { result ≡ repeat most (line_after s.now) net }
{
    let mut after = net;
    let mut i: usize = 0;
    while i < most {
        if !goes_on(s.len(), after.n, after.at, after.line, after.refusal) {
            return after;
        }
        let line = event_line(after.n, s, after.at);
        let places = places_of(line);
        let from = places.from;
        let to = places.to;
        let reached = happen(s, after.nodes[from], after.nodes[to], after.faulty, line);
        if reached.refusal != 0 {
            after.refusal = reached.refusal;
            return after;
        }
        let node = reached.node;
        after.nodes[to] = node;
        after.at = places.next;
        after.line = after.line + 1;
        i += 1;
    }
    after
}

// Calls on the record of a base of the program's net: a start, and the arrival of a message that was read. The frames that a call writes
// join the base's broadcasts.

#![tactic(auto)]

ghost use Rattle.std.specs.Prelude.{◌≡◌, length};
ghost use Rattle.limits.specs.Limits.{output_room};
ghost use Rattle.protocol.specs.Steps as Steps;
ghost use Rattle.change.specs.Change.{changed_base};
ghost use Rattle.hearing.specs.Hearing.{message_arrival};
ghost use Rattle.node_calls.specs.Calls.{node_answer, Fitting, written_answer};

use c_answers::outcome_numbers;
use change::{Change, changed_base};
use keeping::keep_three;
use limits::{MOST_BASES, OUTPUT_ROOM};
use node::Node;

// A base after a call on its record, beside the number by which the call was turned down, 0 for none.
#[derive(Clone, Copy)]
pub struct NodeAnswer {
    pub refusal: u8,
    pub node: Node,
}

// What a call changed in the record, and what it wrote: a call that is turned down changed and wrote nothing. It is part of its callers
// when it runs, so that its copies of the node share their room on the stack with theirs.
#[inline(always)]
fn answered(node: Node, change: Change, out: &[u8]) -> NodeAnswer
    requires { Fitting change.outcome (length out.now) }
    ensures { result ≡ written_answer node (changed_base node.base change) change.outcome out.now }
{
    let base = changed_base(node.base, change);
    let outcome = change.outcome;
    let answer = outcome_numbers(outcome);
    NodeAnswer {
        refusal: answer.refusal,
        node: keep_three(node, base, out, answer.first, answer.second, answer.third),
    }
}

// A start at the base.
pub fn start_node(node: Node) -> NodeAnswer
    ensures { result ≡ node_answer node (Steps.start node.base output_room) }
{
    let mut out = [0u8; OUTPUT_ROOM];
    let change = starting::start(node.base, &mut out);
    answered(node, change, &out)
}

// A message that was read arrives at the base on a link: its kind, and its identifiers with zeros behind.
pub fn hear_message(node: Node, link: usize, kind: u8, ids: [u32; MOST_BASES]) -> NodeAnswer
    ensures { result ≡ node_answer node (message_arrival node.base link 0 kind ids output_room) }
{
    let mut out = [0u8; OUTPUT_ROOM];
    let change = hearing::hear(node.base, link, 0, kind, ids, &mut out);
    answered(node, change, &out)
}

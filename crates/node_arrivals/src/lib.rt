// A burst arrives at a base of the program's net: its reading is taken apart, and what was read arrives.

#![tactic(auto)]

ghost use Rattle.std.specs.Prelude.{◌+◌, ◌*◌, ◌-◌, ◌≤◌, ◌≡◌, length, take, drop};
ghost use Rattle.limits.specs.Limits.{longest_burst};
ghost use Rattle.decoding.specs.Decoding.{id_array};
ghost use Rattle.node.specs.Node.{written};
ghost use Rattle.node_arrivals.specs.Arrivals.{heard_burst};

use decoding::identifiers_at;
use limits::LONGEST_FRAME;
use marking::mark;
use node::{Frame, Node};
use node_calls::hear_message;
use reader::{Reading, read};

// A burst that is not turned down is marked as a's k-th broadcast; 0 marks nothing.
pub fn hear_burst(node: Node, link: usize, burst: &[u8], a: u8, k: usize) -> Node
    ensures { result ≡ heard_burst node link burst.now a k }
{
    let Reading::Message { kind, count, start } = read(node.base.n as usize, burst) else {
        return node;
    };
    let ids = identifiers_at(burst, start, count);
    let answer = hear_message(node, link, kind, ids);
    let after = answer.node;
    if answer.refusal != 0 {
        return after;
    }
    mark(after, a, k)
}

// A frame arrives, as it was written.
pub fn hear_frame(node: Node, link: usize, frame: Frame, a: u8, k: usize) -> Node
    ensures { result ≡ heard_burst node link (written frame) a k }
{
    let bytes = frame.bytes;
    let len = frame.len;
    if LONGEST_FRAME < len {
        return hear_burst(node, link, &bytes, a, k);
    }
    hear_burst(node, link, &bytes[..len], a, k)
}

// A net at the beginning, from its header.
ghost use Rattle.std.specs.Prelude.{◌≡◌, map};
ghost use Rattle.net.specs.Header.{idle_node, begun_net};

use crate::nodes::{empty_node, idle_node};
use crate::{Header, StoredNet};
use limits::MOST_BASES;
use node::Node;

// A node for each identifier.
fn idle_nodes(n: u8, t: u8, ids: [u32; MOST_BASES]) -> [Node; MOST_BASES]
    ensures { result ≡ map (idle_node n t) ids }
{
    let first = empty_node(n, t);
    let mut nodes = [first; MOST_BASES];
    let mut i: usize = 0;
    while i < MOST_BASES {
        let node = idle_node(n, t, ids[i]);
        nodes[i] = node;
        i += 1;
    }
    nodes
}

// The net that a header gives.
pub fn begun_net(header: Header) -> StoredNet
    ensures { result ≡ begun_net header }
{
    let ids = header.ids;
    let faulty = header.faulty;
    StoredNet {
        n: header.n,
        t: header.t,
        faulty,
        nodes: idle_nodes(header.n, header.t, ids),
        at: header.at,
        line: header.line,
        refusal: header.refusal,
    }
}

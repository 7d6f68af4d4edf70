// The lines of all bases of a net. Where there is no room for so many lines, nothing is written.

#![tactic(auto)]

ghost use Rattle.std.specs.Prelude.{◌≡◌, ◌*◌, ◌≤◌};
ghost use Rattle.limits.specs.Limits.{most_bases};
ghost use Rattle.print.specs.Put.{room_end, room_output};
ghost use Rattle.net.specs.Abstraction.{net_of, size};
ghost use Rattle.schedule.specs.Report.{line_room, base_lines};

use base_line::base_line;
use limits::MOST_BASES;
use lists::least;
use net::StoredNet;
use print::has_room;
use report::LINE_ROOM;

// One line a base at the output's front, in order of number; the answer is the place behind them.
pub fn base_lines(net: StoredNet, out: &mut [u8]) -> usize
    ensures value { result ≡ room_end (line_room * most_bases) out.old 0 (base_lines (size net) (net_of net)) }
    ensures out_after { out.new ≡ room_output (line_room * most_bases) out.old 0 (base_lines (size net) (net_of net)) }
    ensures upper_bound { result ≤ line_room * size net }
{
    if !has_room(out.len(), 0, LINE_ROOM * MOST_BASES) {
        return 0;
    }
    let n = least(net.n as usize, MOST_BASES);
    let mut at: usize = 0;
    let mut b: usize = 0;
    while b < n {
        let node = net.nodes[b];
        let base = node.base;
        b += 1;
        at = base_line(out, at, b as u8, base);
    }
    at
}

// A burst arrives at a base: it is read, and what was read is heard.

#![tactic(auto)]

ghost use Rattle.std.specs.Prelude.{length};
ghost use Rattle.protocol.specs.Steps.{arrival};
ghost use Rattle.change.specs.Change.{Does};

use change::Change;
use hearing::hear;
use protocol::Base;
use readings::read_numbers;

// A burst arrives on a link, 1 to n - 1. Turned down by 1 to 12.
pub fn arrive(base: Base, link: usize, burst: &[u8], out: &mut [u8]) -> Change
    ensures { Does base (arrival base link burst.now (length out.old)) result
        out.old out.new }
{
    let heard = read_numbers(base.n as usize, burst);
    let ids = heard.ids;
    hear(base, link, heard.refusal, heard.kind, ids, out)
}

// Whether an identifier is certified, and how many are.

#![tactic(auto)]

ghost use Rattle.std.specs.Prelude.{◌≤◌, ◌≡◌, length};
ghost use Rattle.limits.specs.Limits.{most_bases};
ghost use Rattle.lists.specs.Lists.{member};
ghost use Rattle.protocol.specs.Record.{certified};

use certified::certified_ids;
use membership::holds;
use protocol::Base;

pub fn certifies(base: Base, g: u32) -> bool
    ensures { result ≡ member g (certified base) }
{
    let list = certified_ids(base);
    holds(&list.ids, 0, list.count, g)
}

pub fn certified_count(base: Base) -> usize
    ensures { (result ≡ length (certified base)) × (result ≤ most_bases) }
{
    let list = certified_ids(base);
    list.count
}

// The leader that a base names.

#![tactic(auto)]

ghost use Rattle.std.specs.Prelude.{◌≡◌};
ghost use Rattle.protocol.specs.Steps.{leader_answer};

use leader_rule::leader_of;
use protocol::{Base, Leader, PRIME};
use record_refusals::record_refusal;

// The leader that a stopped base names. Turned down by 1 to 4.
pub fn leader(base: Base) -> Leader
    ensures { result ≡ leader_answer base }
{
    let refusal = record_refusal(base);
    if refusal != 0 {
        return Leader::Refused(refusal);
    }
    if base.state < PRIME {
        return Leader::NotStopped;
    }
    let list = base.final_list;
    let n = base.n as usize;
    Leader::Is(leader_of(&list[..n]))
}

// The start of a base, as what it changes. A record goes in by value, and what is to be changed in it comes back beside the answer; frames
// go into the output that is lent.

#![tactic(auto)]

ghost use Rattle.std.specs.Prelude.{length};
ghost use Rattle.protocol.specs.Steps as Steps;
ghost use Rattle.change.specs.Change.{Does};

use call_refusals::output_refusal;
use change::{Change, discarded, only_state, refused};
use lists::first_of;
use protocol::{Base, IDLE, Outcome, RUNNING};
use record_refusals::record_refusal;
use start_frames::begin;

// Starts an idle base: Announce and Verify of its own identifier. Turned down by 1 to 4 and 6.
pub fn start(base: Base, out: &mut [u8]) -> Change
    ensures { Does base (Steps.start base (length out.old)) result out.old out.new }
{
    let turned_down = first_of(record_refusal(base), output_refusal(out.len()));
    if turned_down != 0 {
        return refused(base, turned_down);
    }
    if base.state != IDLE {
        return discarded(base, base.state);
    }
    let begun = begin(base.n, base.own, out);
    only_state(
        base,
        RUNNING,
        Outcome::Accepted {
            first: begun.announce,
            second: begun.verify,
            third: 0,
            own: begun.slots,
            relayed: 0,
        },
    )
}

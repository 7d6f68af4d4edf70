// Numbers 1 to 4 of a record, in checking order.

#![tactic(auto)]

ghost use Rattle.std.specs.Prelude.{◌≡◌};
ghost use Rattle.protocol.specs.Sound.{record_refusal};

use call_refusals::setting_refusal;
use limits::refusal;
use protocol::Base;
use record_soundness::is_sound;

// Numbers 1 to 4 of a record, 0 for none.
pub fn record_refusal(base: Base) -> u8
    ensures { result ≡ record_refusal base }
{
    let setting = setting_refusal(base.n as usize, base.t as usize, base.own);
    if setting != 0 {
        return setting;
    }
    if !is_sound(base) {
        return refusal::RECORD;
    }
    0
}

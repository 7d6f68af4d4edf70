// Numbers 11 and 12: the identifiers of a message.

#![tactic(auto)]

ghost use Rattle.std.specs.Prelude.{◌≡◌};
ghost use Rattle.frame.specs.Reading.{list_refusal};

use comparison::ascends;
use limits::refusal;
use membership::none_zero;

pub fn list_refusal(ids: &[u32]) -> u8
    ensures { result ≡ list_refusal ids.now }
{
    if !none_zero(ids, ids.len()) {
        return refusal::ZERO_IDENTIFIER;
    }
    if !ascends(ids, ids.len()) {
        return refusal::NOT_ASCENDING;
    }
    0
}

// The change that a call of the engine answers with, made where the record lies.

#![tactic(auto)]

ghost use Rattle.std.specs.Prelude.{◌≡◌};
ghost use Rattle.change.specs.Change.{changed_base};
ghost use Rattle.c_answers.specs.Numbers.{outcome_numbers};

use c_answers::{CallAnswer, outcome_numbers};
use change::{Change, changed_base};
use protocol::Base;

// The record with the change made; the answer in numbers. A function of its own also when it runs, so that the changed record takes no room
// on the stack while the engine works.
#[inline(never)]
pub fn store(base: &mut Base, change: Change) -> CallAnswer
    ensures { (result ≡ outcome_numbers change.outcome) × (base.new ≡ changed_base base.old change) }
{
    *base = changed_base(*base, change);
    outcome_numbers(change.outcome)
}

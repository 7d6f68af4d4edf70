// What a call changes in a base's record, beside its answer. One link at most is touched.

#![tactic(auto)]

ghost use Rattle.std.specs.Prelude.{◌≡◌};
ghost use Rattle.protocol.specs.Steps.{refuses, discards, with_state};
ghost use Rattle.change.specs.Change.{changed_base, ChangeOf};

use limits::{MOST_BASES, MOST_LINKS};
use protocol::{Base, Link, Outcome};

// The answer, and what is set: state, sent, final list, and the link at one place.
#[derive(Clone, Copy)]
pub struct Change {
    pub outcome: Outcome,
    pub state: u8,
    pub sent: u8,
    pub place: usize,
    pub link: Link,
    pub final_list: [u32; MOST_BASES],
}

// The record with a change made.
pub fn changed_base(base: Base, change: Change) -> Base
    ensures { result ≡ changed_base base change }
{
    let mut next = base;
    let list = change.final_list;
    next.state = change.state;
    next.sent = change.sent;
    next.final_list = list;
    let place = change.place;
    if MOST_LINKS <= place {
        return next;
    }
    let link = change.link;
    next.links[place] = link;
    next
}

// The state is set and nothing else; the answer is as given.
pub fn only_state(base: Base, state: u8, outcome: Outcome) -> Change
    ensures { (result.outcome ≡ outcome) × (changed_base base result ≡ with_state base state) }
{
    let link = base.links[0];
    let list = base.final_list;
    Change {
        outcome,
        state,
        sent: base.sent,
        place: 0,
        link,
        final_list: list,
    }
}

// A call that is turned down changes nothing.
pub fn refused(base: Base, number: u8) -> Change
    ensures { ChangeOf base (refuses base number) result }
{
    only_state(base, base.state, Outcome::Refused(number))
}

// A message that is discarded at a base of that state.
pub fn discarded(base: Base, state: u8) -> Change
    ensures { ChangeOf base (discards (with_state base state)) result }
{
    only_state(
        base,
        state,
        Outcome::Discarded {
            first: 0,
            second: 0,
            third: 0,
            own: 0,
            relayed: 0,
        },
    )
}

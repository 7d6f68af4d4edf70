// A message that was read, as the code hands it on: its kind, and its identifiers with zeros behind. The numbers by which one that no
// reading gives is turned down.

#![tactic(auto)]

ghost use Rattle.std.specs.Prelude.{◌≡◌};
ghost use Rattle.messages.specs.Messages.{message_refusal};

use comparison::zero_behind;
use frame::kind::{Shape, shape_of};
use limits::{MOST_BASES, refusal};
use lists::least;
use message_lists::list_refusal;

// Numbers 8, 9, 11 and 12 of a message in a net of n bases, 0 for none. Of a net of more than 16 bases the array holds 16 identifiers.
pub fn message_refusal(n: u8, kind: u8, ids: [u32; MOST_BASES]) -> u8
    ensures { result ≡ message_refusal n kind ids }
{
    let Shape::Known { count, length: _ } = shape_of(kind, n) else {
        return refusal::KIND;
    };
    if !zero_behind(&ids, count) {
        return refusal::COUNT;
    }
    let end = least(count, MOST_BASES);
    list_refusal(&ids[..end])
}

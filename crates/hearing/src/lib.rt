// One base's call on what a reading gave: an arrival and a forged line share it. A record goes in by value, and what is to be changed in
// it comes back beside the answer; frames go into the output that is lent, one after another.

#![tactic(auto)]

ghost use Rattle.std.specs.Prelude.{length};
ghost use Rattle.change.specs.Change.{Does};
ghost use Rattle.hearing.specs.Hearing.{message_arrival};

use call_refusals::{link_refusal, output_refusal};
use change::{Change, discarded, refused};
use first_message::respond_first;
use limits::MOST_BASES;
use lists::first_of;
use messages::message_refusal;
use protocol::{Base, IDLE, PRIME};
use record_refusals::record_refusal;
use responding::respond;
use settling::{accepted_at, decided};

// What was read arrives on a link, 1 to n - 1: a message's kind, and its identifiers with zeros behind, where the reading gave no number.
// Turned down by 1 to 6, by that number, and by 8, 9, 11 and 12 where no reading gives such a message. A stopped base discards, an idle
// one starts first. Each state accepts and decides by itself: called from two places, `accepted_at` and `decided` keep frames of their own
// in an archive, and their copies of the record take no room while it is checked (docs/DECISIONS.md).
pub fn hear(
    base: Base,
    link: usize,
    number: u8,
    kind: u8,
    ids: [u32; MOST_BASES],
    out: &mut [u8],
) -> Change
    ensures { Does base (message_arrival base link number kind ids (length out.old)) result
        out.old out.new }
{
    let place = first_of(link_refusal(base.n, link), output_refusal(out.len()));
    let message = first_of(number, message_refusal(base.n, kind, ids));
    let refusal = first_of(first_of(record_refusal(base), place), message);
    if refusal != 0 {
        return refused(base, refusal);
    }
    if PRIME <= base.state {
        return discarded(base, base.state);
    }
    let i = link - 1;
    if base.state != IDLE {
        let accepted = accepted_at(base, i, kind, ids);
        let decision = decided(base, i, accepted, kind, ids);
        return respond(base.n, i, accepted, decision, ids, out);
    }
    let accepted = accepted_at(base, i, kind, ids);
    let decision = decided(base, i, accepted, kind, ids);
    respond_first(base.n, base.own, i, accepted, decision, ids, out)
}

// What an idle base broadcasts at its first message: "An idle base starts first."

#![tactic(auto)]

ghost use Rattle.std.specs.Prelude.{◌≡◌, length};
ghost use Rattle.frame.specs.Encoding.{over};
ghost use Rattle.first_message.specs.FirstMessage.{behind_start, first_change, first_frames};

use accepting::Accepted;
use change::Change;
use deciding::Decision;
use limits::MOST_BASES;
use protocol::Outcome;
use responding::respond;
use start_frames::{StartSizes, begin};

// The answer of a first message, behind the two frames of the start.
fn behind_start(start: StartSizes, outcome: Outcome) -> Outcome
    ensures { result ≡ behind_start start outcome }
{
    match outcome {
        Outcome::Accepted {
            first,
            second: _,
            third: _,
            own: _,
            relayed,
        } => Outcome::Accepted {
            first: start.announce,
            second: start.verify,
            third: first,
            own: start.slots,
            relayed,
        },
        Outcome::Discarded {
            first,
            second: _,
            third: _,
            own: _,
            relayed,
        } => Outcome::Discarded {
            first: start.announce,
            second: start.verify,
            third: first,
            own: start.slots, // the frames of a start are sent all the same
            relayed,
        },
        Outcome::Refused(number) => Outcome::Refused(number),
    }
}

// The response to the first message, behind the two frames of the start.
pub fn respond_first(
    n: u8,
    own: u32,
    i: usize,
    accepted: Accepted,
    decision: Decision,
    ids: [u32; MOST_BASES],
    out: &mut [u8],
) -> Change
    ensures { (result ≡ first_change n own i accepted decision ids (length out.old))
        × (out.new ≡ over (first_frames n own accepted.accepted decision ids (length out.old)) out.old) }
{
    let start = begin(n, own, out);
    let behind = start.announce + start.verify;
    let rest = respond(n, i, accepted, decision, ids, &mut out[behind..]);
    let answer = rest.outcome;
    let link = rest.link;
    let list = rest.final_list;
    Change {
        outcome: behind_start(start, answer),
        state: rest.state,
        sent: rest.sent,
        place: rest.place,
        link,
        final_list: list,
    }
}

// What a base broadcasts at a message, by what it decided, and what is then to be set in its record.

#![tactic(auto)]

ghost use Rattle.std.specs.Prelude.{◌≡◌, length};
ghost use Rattle.frame.specs.Encoding.{over};
ghost use Rattle.responding.specs.Responding.{response_frames, response_outcome, response_change};

use accepting::Accepted;
use broadcasting::put_broadcasts;
use change::Change;
use deciding::Decision;
use limits::MOST_BASES;
use protocol::Outcome;

fn say_response(
    n: u8,
    accepted: bool,
    decision: Decision,
    ids: [u32; MOST_BASES],
    out: &mut [u8],
) -> Outcome
    ensures { (result ≡ response_outcome n accepted decision ids (length out.old))
        × (out.new ≡ over (response_frames n accepted decision ids (length out.old)) out.old) }
{
    if !accepted {
        return Outcome::Discarded {
            first: 0,
            second: 0,
            third: 0,
            own: 0,
            relayed: 0,
        };
    }
    let list = decision.final_list;
    put_broadcasts(n, decision.first, ids, decision.stops, list, out)
}

// The frames that the base then broadcasts, at the front of the output, and what is to be set in its record.
pub fn respond(
    n: u8,
    i: usize,
    accepted: Accepted,
    decision: Decision,
    ids: [u32; MOST_BASES],
    out: &mut [u8],
) -> Change
    ensures { (result ≡ response_change n i accepted decision ids (length out.old))
        × (out.new ≡ over (response_frames n accepted.accepted decision ids (length out.old)) out.old) }
{
    let link = accepted.link;
    let list = decision.final_list;
    let outcome = say_response(n, accepted.accepted, decision, ids, out);
    Change {
        outcome,
        state: decision.state,
        sent: decision.sent,
        place: i,
        link,
        final_list: list,
    }
}

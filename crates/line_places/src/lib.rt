// Where the bases that a line of events names stand in the net, and where the next line begins.

#![tactic(auto)]

ghost use Rattle.std.specs.Prelude.{◌≡◌, ◌<◌};
ghost use Rattle.limits.specs.Limits.{most_bases};
ghost use Rattle.stored_walk.specs.State.{next_of};
ghost use Rattle.stored_walk.specs.Reaching.{sender_of, receiver_of, node_place};

use limits::MOST_BASES;
use lines::event::Line;

// Where base b stands in the net.
fn place_of(b: u8) -> usize
    ensures { (result ≡ node_place b) × (result < most_bases) }
{
    let number = b as usize;
    if number < 1 {
        return 0;
    }
    if MOST_BASES < number {
        return 0;
    }
    number - 1
}

// Where the base stands that sends, where the one that is reached, and where the line behind begins.
#[derive(Clone, Copy)]
pub struct Places {
    pub from: usize,
    pub to: usize,
    pub next: usize,
}

pub fn places_of(line: Line) -> Places
    ensures from_value { (result.from ≡ node_place (sender_of line)) × (result.from < most_bases) }
    ensures to_value { (result.to ≡ node_place (receiver_of line)) × (result.to < most_bases) }
    ensures next_value { result.next ≡ next_of line }
{
    match line {
        Line::Start { base, next } => Places {
            from: place_of(base),
            to: place_of(base),
            next,
        },
        Line::Carry {
            from,
            to,
            number: _,
            next,
        } => Places {
            from: place_of(from),
            to: place_of(to),
            next,
        },
        Line::Forge {
            from,
            to,
            at: _,
            count: _,
            next,
        } => Places {
            from: place_of(from),
            to: place_of(to),
            next,
        },
        Line::Wrong => Places {
            from: place_of(0),
            to: place_of(0),
            next: 0,
        },
    }
}

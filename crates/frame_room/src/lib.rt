// Whether a frame fits in the room of an output.

#![tactic(auto)]

ghost use Rattle.std.specs.Prelude.{◌≡◌};
ghost use Rattle.frame_room.specs.Room.{frame_fits};

use frame::kind::{kind_refusal, length_of};

// Whether a frame of a kind with so many identifiers fits in so much room.
pub fn frame_fits(kind: u8, n: u8, count: usize, room: usize) -> bool
    ensures { result ≡ frame_fits n kind count room }
{
    if kind_refusal(kind, count, n) != 0 {
        return false;
    }
    length_of(kind, n) <= room
}

// A frame's size: its bytes, and the slots of airtime that it takes.
ghost use Rattle.std.specs.Prelude.{◌≡◌};
ghost use Rattle.frame.specs.Slots.{size_of};

use limits::frame_slots;

#[derive(Clone, Copy)]
pub struct FrameSize {
    pub length: usize,
    pub slots: usize,
}

// Of a frame of so many bytes; 0 bytes are no frame.
pub fn frame_size(length: usize) -> FrameSize
    ensures { result ≡ size_of length }
{
    FrameSize {
        length,
        slots: frame_slots(length),
    }
}

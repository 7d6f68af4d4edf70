// What a call broadcast.
use crate::message::{AtBase, BurstMessage};
use c_answers::CallAnswer;
use parts::{part, plus};

// A call at base b of n, which had made so many broadcasts, whether the base stops by it, and what it answered.
#[derive(Clone, Copy)]
pub struct BaseCall<'a> {
    pub b: u8,
    pub n: u8,
    pub made: usize,
    pub stops: bool,
    pub answer: CallAnswer,
    pub frames: &'a [u8],
}

impl<'a> BaseCall<'a> {
    // Its frame i of 1 to 3, empty where it broadcast fewer.
    fn frame(&self, i: usize) -> &'a [u8] {
        let CallAnswer {
            first,
            second,
            third,
            ..
        } = self.answer;
        match i {
            1 => part(self.frames, 0, first),
            2 => part(self.frames, first, second),
            _ => part(self.frames, plus(first, second), third),
        }
    }

    fn say_frame(&self, out: &impl Print, i: usize) {
        let burst = self.frame(i);
        if burst.is_empty() {
            return;
        }
        let number = plus(self.made, i);
        let _ = println!(out;
            "{} broadcasts {number}: {}",
            AtBase(self.b),
            BurstMessage { n: self.n, burst }
        );
    }

    // The two frames of a start.
    pub fn of_start(&self, out: &impl Print) {
        self.say_frame(out, 1);
        self.say_frame(out, 2)
    }

    // That the base starts, and what it broadcasts by that.
    pub fn say_start(&self, out: &impl Print) {
        let _ = println!(out; "{} starts", AtBase(self.b));
        self.of_start(out)
    }

    // The frame behind those of a start: an idle base does not stop by its first message.
    pub fn say_behind_start(&self, out: &impl Print) {
        self.say_frame(out, 3)
    }

    // Whether frame i is the last, behind the check: the Correct-Final of a base that stops.
    fn is_last(&self, i: usize) -> bool {
        let next = match i {
            1 => self.answer.second,
            2 => self.answer.third,
            _ => 0,
        };
        self.stops && next == 0
    }

    // The frames before its check, or the last.
    pub fn say_frames(&self, out: &impl Print, last: bool) {
        for i in 1..4 {
            if self.is_last(i) == last {
                self.say_frame(out, i);
            }
        }
    }

    // The slots of what it broadcast, where it broadcast something.
    pub fn say_slots(&self, out: &impl Print) {
        let CallAnswer {
            first,
            own,
            relayed,
            ..
        } = self.answer;
        if first == 0 {
            return;
        }
        let _ = println!(out;
            "{}, slots of this line: own {own}, relayed {relayed}",
            AtBase(self.b)
        );
    }
}

// The calls on the sets of faulty links as C sees them (include/roster.h): answers as numbers, slices as pointer and length.

#![tactic(auto)]

ghost use Rattle.std.specs.Prelude.{◌≡◌};
ghost use Rattle.print.specs.Put.{room_end, room_output};
ghost use Rattle.faulty_sets.specs.Answers.{count_answer, set_answer};
ghost use Rattle.set_text.specs.Text.{sets_room, sets_text};
ghost use Rattle.faulty_c.specs.Numbers.{count_numbers, set_numbers};

use faulty_sets::{FaultyCount, FaultySet, faulty_count, faulty_set};
use limits::SMALL_FAULTY;
use link_sets::LinkPair;

// How many sets there are.
#[repr(C)]
#[derive(Clone, Copy)]
pub struct CountAnswer {
    // The number by which the call was turned down, or zero.
    pub refusal: u8,
    pub count: usize,
}

// The set of a number: its links in order, zeros behind.
#[repr(C)]
#[derive(Clone, Copy)]
pub struct SetAnswer {
    pub refusal: u8,
    pub count: u8,
    pub pairs: [LinkPair; SMALL_FAULTY],
}

fn count_numbers(count: FaultyCount) -> CountAnswer
    ensures { result ≡ count_numbers count }
{
    match count {
        FaultyCount::Sets(count) => CountAnswer { refusal: 0, count },
        FaultyCount::Refused(number) => CountAnswer {
            refusal: number,
            count: 0,
        },
    }
}

fn set_numbers(set: FaultySet) -> SetAnswer
    ensures { result ≡ set_numbers set }
{
    let none = LinkPair {
        lower: 0,
        higher: 0,
    };
    match set {
        FaultySet::Links {
            count,
            first,
            second,
        } => SetAnswer {
            refusal: 0,
            count,
            pairs: [first, second],
        },
        FaultySet::Refused(number) => SetAnswer {
            refusal: number,
            count: 0,
            pairs: [none; SMALL_FAULTY],
        },
    }
}

// How many sets of at most t links a net of n bases has. Turned down by 1, 2 and 19.
#[unsafe(no_mangle)]
pub extern "C" fn roster_faulty_count(n: usize, t: usize) -> CountAnswer
    ensures { result ≡ count_numbers (count_answer n t) }
{
    count_numbers(faulty_count(n, t))
}

// The set of a number, from 0 on. Turned down by 1, 2, 19 and 20.
#[unsafe(no_mangle)]
pub extern "C" fn roster_faulty_set(n: usize, t: usize, number: usize) -> SetAnswer
    ensures { result ≡ set_numbers (set_answer n t number) }
{
    set_numbers(faulty_set(n, t, number))
}

// All sets of the net that a schedule's first line names, as hillfaults prints them; the length of the lines.
#[unsafe(no_mangle)]
pub extern "C" fn roster_faulty_text(schedule: &[u8], out: &mut [u8]) -> usize
    ensures value { result ≡ room_end sets_room out.old 0 (sets_text schedule.now) }
    ensures out_after { out.new ≡ room_output sets_room out.old 0 (sets_text schedule.now) }
{
    set_text::sets_text(schedule, out)
}

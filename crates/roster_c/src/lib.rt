// The calls on a base as C sees them (include/roster.h): records lent by pointer, slices as pointer and length, answers as numbers.

#![tactic(auto)]

ghost use Rattle.std.specs.Prelude.{◌≡◌, length};
ghost use Rattle.writer.specs.Writing.{written_of, write_output};
ghost use Rattle.decoding.specs.Decoding.{id_array};
ghost use Rattle.reader.specs.Answers.{reading_of, stretch};
ghost use Rattle.protocol.specs.Steps.{arrival, start, leader_answer};
ghost use Rattle.change.specs.Change.{DoesAs};
ghost use Rattle.idle.specs.Made.{made_of};
ghost use Rattle.roster_c.specs.Version.{version};
ghost use Rattle.c_answers.specs.Numbers.{outcome_numbers, leader_numbers, written_numbers};
ghost use Rattle.readings.specs.ReadNumbers.{read_numbers};

use c_answers::{CallAnswer, LeaderAnswer, WriteAnswer, leader_numbers, written_numbers};
use idle::Made;
use protocol::Base;
use readings::{ReadAnswer, read_numbers};
use storing::store;

// ROSTER_VERSION of include/roster.h.
const VERSION: u32 = 2;

// An idle record from n, t and the own identifier. Turned down by 1 to 3.
#[unsafe(no_mangle)]
pub extern "C" fn roster_idle(n: usize, t: usize, own: u32) -> Made
    ensures { result ≡ made_of n t own }
{
    idle::make_idle(n, t, own)
}

// Starts an idle base. Turned down by 1 to 4 and 6.
#[unsafe(no_mangle)]
pub extern "C" fn roster_start(base: &mut Base, out: &mut [u8]) -> CallAnswer
    ensures { DoesAs outcome_numbers (start base.old (length out.old)) result
        base.new out.old out.new }
{
    let started = starting::start(*base, out);
    store(base, started)
}

// A burst arrives on a link, 1 to n - 1. Turned down by 1 to 12.
#[unsafe(no_mangle)]
pub extern "C" fn roster_arrive(
    base: &mut Base,
    link: usize,
    burst: &[u8],
    out: &mut [u8],
) -> CallAnswer
    ensures { DoesAs outcome_numbers (arrival base.old link burst.now (length out.old)) result
        base.new out.old out.new }
{
    let arrived = arriving::arrive(*base, link, burst, out);
    store(base, arrived)
}

// The leader that a stopped base names. Turned down by 1 to 4.
#[unsafe(no_mangle)]
pub extern "C" fn roster_leader(base: &mut Base) -> LeaderAnswer
    ensures { (result ≡ leader_numbers (leader_answer base.old)) × (base.new ≡ base.old) }
{
    leader_numbers(leader::leader(*base))
}

// The message of a burst. Turned down by 1 and 7 to 12.
#[unsafe(no_mangle)]
pub extern "C" fn roster_read(n: usize, burst: &[u8]) -> ReadAnswer
    ensures { result ≡ read_numbers (reading_of n burst.now) (id_array (stretch n burst.now)) }
{
    read_numbers(n, burst)
}

// The frame of a message. Turned down by 1, 6, 8, 9, 11 and 12.
#[unsafe(no_mangle)]
pub extern "C" fn roster_write(n: usize, kind: u8, ids: &[u32], out: &mut [u8]) -> WriteAnswer
    ensures { (result ≡ written_numbers (written_of n kind ids.now (length out.old)))
        × (out.new ≡ write_output n kind ids.now out.old) }
{
    written_numbers(writer::write(n, kind, ids, out))
}

// The version of the header that the library goes with.
#[unsafe(no_mangle)]
pub extern "C" fn roster_version() -> u32
    ensures { result ≡ version }
{
    VERSION
}

// The lines of sets put at a place of an output that has room for them.
ghost use Rattle.std.specs.Prelude.{◌≡◌, ◌+◌, ◌*◌, ◌≤◌, length, take};
ghost use Rattle.print.specs.Put.{Put};
ghost use Rattle.link_sets.specs.Sets.{faulty_sets};
ghost use Rattle.faulty_sets.specs.Answers.{small_refusal, answered_links};
ghost use Rattle.faulty_sets.specs.Small.{small_faulty};
ghost use Rattle.set_text.specs.Text.{pair_room, set_room, sets_room, pair_line, pair_lines, set_lines, lines_from};

use faulty_sets::{FaultySet, faulty_set};
use limits::SMALL_FAULTY;
use link_sets::LinkPair;
use lists::least;
use print::put_text;
use print_fields::put_field;

// `faulty 1 2`
fn put_pair(out: &mut [u8], at: usize, pair: LinkPair) -> usize
    requires { at + pair_room ≤ length out.old }
    ensures put { Put out.old at (pair_line pair) out.new result }
    ensures upper_bound { result ≤ at + pair_room }
{
    let first = put_field(out, at, b"faulty ", pair.lower as u64);
    let second = put_field(out, first, b" ", pair.higher as u64);
    put_text(out, second, b"\n")
}

// The first links of an array, so many of them.
fn put_pairs(out: &mut [u8], at: usize, count: usize, pairs: [LinkPair; SMALL_FAULTY]) -> usize
    requires { (at + pair_room * small_faulty ≤ length out.old) × (count ≤ small_faulty) × (length pairs ≡ small_faulty) }
    ensures put { Put out.old at (pair_lines (take count pairs)) out.new result }
    ensures upper_bound { result ≤ at + pair_room * small_faulty }
{
    let mut end = at;
    let mut i: usize = 0;
    while i < count {
        end = put_pair(out, end, pairs[i]);
        i += 1;
    }
    end
}

// `set 7` and its links.
fn put_set(out: &mut [u8], at: usize, number: usize, set: FaultySet) -> usize
    requires { at + set_room ≤ length out.old }
    ensures put { Put out.old at (set_lines number (answered_links set)) out.new result }
    ensures upper_bound { result ≤ at + set_room }
{
    let line = put_field(out, at, b"set ", number as u64);
    let end = put_text(out, line, b"\n");
    let FaultySet::Links {
        count,
        first,
        second,
    } = set
    else {
        return end;
    };
    put_pairs(
        out,
        end,
        least(count as usize, SMALL_FAULTY),
        [first, second],
    )
}

// The sets of a net, so many.
pub(crate) fn put_sets(n: usize, t: usize, count: usize, out: &mut [u8]) -> usize
    requires { (small_refusal n t ≡ 0) × (count ≡ length (faulty_sets n t)) × (sets_room ≤ length out.old) }
    ensures { Put out.old 0 (lines_from 0 (faulty_sets n t)) out.new result }
{
    let mut at: usize = 0;
    let mut number: usize = 0;
    while number < count {
        at = put_set(out, at, number, faulty_set(n, t, number));
        number += 1;
    }
    at
}

// The sets of at most t links of a small net: how many there are, and the set of a number. No list of sets is built: the sets are counted
// by a formula, and one is found on one walk over the net's pairs.

#![tactic(auto)]

mod count;
mod search;

ghost use Rattle.std.specs.Prelude.{◌≡◌, ◌≤◌, ltb, length};
ghost use Rattle.lists.specs.Choice.{choose};
ghost use Rattle.limits.specs.Limits.{small_bases};
ghost use Rattle.link_sets.specs.Sets.{faulty_sets, faulty_set_at};
ghost use Rattle.faulty_sets.specs.Answers.{small_refusal, set_refusal, links_answer, count_answer, set_answer};
ghost use Rattle.faulty_sets.specs.Search.{chosen_pairs};
ghost use Rattle.faulty_sets.specs.Small.{small_faulty};

use crate::count::{choices_below, of_size, pair_count};
use crate::search::{Chosen, chosen_at, found};
use limits::refusal::{LARGE_NET, SET_NUMBER};
use limits::{SMALL_BASES, size_refusal};
use link_sets::LinkPair;
use lists::first_of;

// How many sets there are, or the number by which the call was turned down.
#[derive(Clone, Copy)]
pub enum FaultyCount {
    Sets(usize),
    Refused(u8),
}

// The set of a number: how many links it has and which, in order, places that are not in use zero; or the number by which the call was
// turned down.
#[derive(Clone, Copy)]
pub enum FaultySet {
    Links {
        count: u8,
        first: LinkPair,
        second: LinkPair,
    },
    Refused(u8),
}

// Number 19, or 0 where the net is small.
fn large_refusal(n: usize) -> u8
    ensures { result ≡ choose (ltb small_bases n) 19 0 }
{
    if SMALL_BASES < n {
        return LARGE_NET;
    }
    0
}

// Numbers 1, 2 and 19, 0 for none.
fn small_refusal(n: usize, t: usize) -> u8
    ensures { result ≡ small_refusal n t }
{
    let size = size_refusal(n, t);
    let large = large_refusal(n);
    first_of(size, large)
}

fn set_count(n: usize, t: usize) -> usize
    requires { small_refusal n t ≡ 0 }
    ensures { result ≡ length (faulty_sets n t) }
{
    choices_below(pair_count(n), t + 1)
}

// Numbers 1, 2, 19 and 20, 0 for none.
fn set_refusal(n: usize, t: usize, number: usize) -> u8
    ensures { result ≡ set_refusal n t number }
{
    let small = small_refusal(n, t);
    if small != 0 {
        return small;
    }
    let last = set_count(n, t) - 1;
    if last < number {
        return SET_NUMBER;
    }
    0
}

// The set of a number by its size and its number among the sets of that size.
fn set_found(n: usize, t: usize, number: usize) -> Chosen
    requires { set_refusal n t number ≡ 0 }
    ensures { (chosen_pairs result ≡ faulty_set_at n t number) × (result.count ≤ small_faulty) × (length result.pairs ≡ small_faulty) }
{
    let at = of_size(pair_count(n), t, number);
    found(n, at.size, at.number)
}

fn links_of(chosen: Chosen) -> FaultySet
    requires { (chosen.count ≤ small_faulty) × (length chosen.pairs ≡ small_faulty) }
    ensures { result ≡ links_answer (chosen_pairs chosen) }
{
    FaultySet::Links {
        count: chosen.count as u8,
        first: chosen_at(chosen, 0),
        second: chosen_at(chosen, 1),
    }
}

// How many sets of at most t links a net of n bases has.
pub fn faulty_count(n: usize, t: usize) -> FaultyCount
    ensures { result ≡ count_answer n t }
{
    let refusal = small_refusal(n, t);
    if refusal != 0 {
        return FaultyCount::Refused(refusal);
    }
    FaultyCount::Sets(set_count(n, t))
}

// The set of a number, from 0 on.
pub fn faulty_set(n: usize, t: usize, number: usize) -> FaultySet
    ensures { result ≡ set_answer n t number }
{
    let refusal = set_refusal(n, t, number);
    if refusal != 0 {
        return FaultySet::Refused(refusal);
    }
    links_of(set_found(n, t, number))
}

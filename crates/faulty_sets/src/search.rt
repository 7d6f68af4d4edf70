// The search for a set among the sets of one size: pair by pair in the net's order, each is in it or not.
ghost use Rattle.std.specs.Prelude.{◌≡◌, ◌+◌, ◌≤◌, ◌<◌, [], length, get_or};
ghost use Rattle.limits.specs.Limits.{small_bases};
ghost use Rattle.link_sets.specs.Pairs.{net_pairs};
ghost use Rattle.link_sets.specs.Sets.{sets_of};
ghost use Rattle.faulty_sets.specs.Answers.{no_link_pair};
ghost use Rattle.faulty_sets.specs.Search.{chosen_pairs, with_pair, sought_by, Searching};
ghost use Rattle.faulty_sets.specs.Small.{small_faulty};

use crate::count::{choices, pair_count};
use limits::SMALL_FAULTY;
use link_sets::LinkPair;

// The pairs that are chosen, in order.
#[derive(Clone, Copy)]
pub(crate) struct Chosen {
    pub count: usize,
    pub pairs: [LinkPair; SMALL_FAULTY],
}

#[derive(Clone, Copy)]
pub(crate) struct Search {
    // The place of the pair that is decided next.
    pub place: usize,
    // How many pairs from there on the set has, and its number among the sets of so many of them.
    pub wanted: usize,
    pub number: usize,
    pub chosen: Chosen,
}

// The pair at a place of the net's order, base by base.
fn pair_at(n: usize, place: usize) -> LinkPair
    requires { (1 ≤ n) × (n ≤ small_bases) × (place < length (net_pairs n)) }
    ensures { result ≡ get_or (net_pairs n) place no_link_pair }
{
    let mut lower: usize = 1;
    let mut above = n - 1;
    let mut rest = place;
    while above <= rest {
        rest -= above;
        above -= 1;
        lower += 1;
    }
    LinkPair {
        lower: lower as u8,
        higher: (lower + 1 + rest) as u8,
    }
}

fn with_pair(chosen: Chosen, pair: LinkPair) -> Chosen
    requires { chosen.count < small_faulty }
    ensures { result ≡ with_pair chosen pair }
{
    let count = chosen.count;
    let mut after = chosen;
    after.pairs[count] = pair;
    after.count = count + 1;
    after
}

// The pair at the search's place is in the set if the number is below that of the sets with it.
fn decide_pair(n: usize, search: Search) -> Search
    requires le_n { (1 ≤ n) × (n ≤ small_bases) × (0 < search.wanted) }
    requires searching { Searching n search }
    ensures result_value { (sought_by n result ≡ sought_by n search) × (result.place ≡ search.place + 1) }
    ensures searching_2 { Searching n result }
{
    let place = search.place;
    let wanted = search.wanted;
    let number = search.number;
    let chosen = search.chosen;
    let with = choices(pair_count(n) - (place + 1), wanted - 1);
    if number < with {
        return Search {
            place: place + 1,
            wanted: wanted - 1,
            number,
            chosen: with_pair(chosen, pair_at(n, place)),
        };
    }
    Search {
        place: place + 1,
        wanted,
        number: number - with,
        chosen,
    }
}

// The set of a number among the sets of so many pairs.
pub(crate) fn found(n: usize, size: usize, number: usize) -> Chosen
    requires { (1 ≤ n) × (n ≤ small_bases) × (size ≤ small_faulty) × (number < length (sets_of size (net_pairs n))) }
    ensures { (chosen_pairs result ≡ get_or (sets_of size (net_pairs n)) number []) × (result.count ≤ small_faulty)
        × (length result.pairs ≡ small_faulty) }
{
    let none = LinkPair {
        lower: 0,
        higher: 0,
    };
    let chosen = Chosen {
        count: 0,
        pairs: [none; SMALL_FAULTY],
    };
    let mut search = Search {
        place: 0,
        wanted: size,
        number,
        chosen,
    };
    while 0 < search.wanted {
        search = decide_pair(n, search);
    }
    search.chosen
}

// The pair at a place of what is chosen; zero where there is none.
pub(crate) fn chosen_at(chosen: Chosen, i: usize) -> LinkPair
    requires { (i < small_faulty) × (length chosen.pairs ≡ small_faulty) }
    ensures { result ≡ get_or (chosen_pairs chosen) i no_link_pair }
{
    if chosen.count <= i {
        return LinkPair {
            lower: 0,
            higher: 0,
        };
    }
    chosen.pairs[i]
}

// Whether a record is sound.

#![tactic(auto)]

ghost use Rattle.std.specs.Prelude.{◌≡◌, eqb, leb};
ghost use Rattle.limits.specs.Limits.{most_links};
ghost use Rattle.lists.specs.Choice.{choose};
ghost use Rattle.counting.specs.Sums.{all};
ghost use Rattle.protocol.specs.Record.{link_at};
ghost use Rattle.protocol.specs.Sound.{place_sound, announces_sound, final_sound, sound};

use certified::certified_ids;
use comparison::zero_behind;
use limits::MOST_LINKS;
use link_soundness::place_sound;
use list_soundness::list_sound;
use membership::differ;
use protocol::{Base, IDLE, PRIME, SECONDARY};

// The flag that a Verify-Final was sent: 0 or 1, and 0 of an idle base.
fn sent_sound(state: u8, sent: u8) -> bool
    ensures { result ≡ choose (eqb state 0) (eqb sent 0) (leb sent 1) }
{
    if state == IDLE {
        return sent == 0;
    }
    sent <= 1
}

// The bases from which a link may hold something: an idle base holds nothing, as if it were alone.
fn heard_size(state: u8, n: u8) -> u8
    ensures { result ≡ choose (eqb state 0) 1 n }
{
    if state == IDLE {
        return 1;
    }
    n
}

// Every place, in a net of that size.
fn links_sound(base: Base, size: u8) -> bool
    ensures { result ≡ all most_links (λ i. place_sound size i (link_at base i)) }
{
    let mut i = MOST_LINKS;
    while 0 < i {
        let j = i - 1;
        let link = base.links[j];
        if !place_sound(size, j, link) {
            return false;
        }
        i = j;
    }
    true
}

// No Announce identifier at two links or equal to the own one.
fn announces_sound(base: Base) -> bool
    ensures { result ≡ announces_sound base }
{
    let list = certified_ids(base);
    differ(&list.ids, list.count)
}

fn final_sound(base: Base) -> bool
    ensures { result ≡ final_sound base }
{
    let list = base.final_list;
    if PRIME <= base.state {
        return list_sound(base.n, list);
    }
    zero_behind(&list, 0)
}

pub fn is_sound(base: Base) -> bool
    ensures { result ≡ sound base }
{
    if SECONDARY < base.state {
        return false;
    }
    if !sent_sound(base.state, base.sent) {
        return false;
    }
    if !links_sound(base, heard_size(base.state, base.n)) {
        return false;
    }
    if !announces_sound(base) {
        return false;
    }
    final_sound(base)
}

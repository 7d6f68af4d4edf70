// The identifiers of the bases, as a schedule's header names them: that of base b stands at b - 1, zero for none yet.

#![tactic(auto)]

ghost use Rattle.std.specs.Prelude.{◌≡◌};
ghost use Rattle.limits.specs.Limits.{most_bases};
ghost use Rattle.schedule.specs.Header.{owned, id_refusal};
ghost use Rattle.base_identifiers.specs.Identifiers.{named_ids, ids_net};

use limits::refusal::SAME_IDENTIFIER;
use limits::{MOST_BASES, own_refusal};

// The identifiers with v as that of base b.
pub fn named_ids(ids: [u32; MOST_BASES], b: u8, v: u32) -> [u32; MOST_BASES]
    ensures { result ≡ named_ids ids b v }
{
    let place = b as usize;
    if place < 1 {
        return ids;
    }
    if MOST_BASES < place {
        return ids;
    }
    let mut after = ids;
    after[place - 1] = v;
    after
}

// Whether a base has the identifier v.
fn is_named(ids: [u32; MOST_BASES], v: u32) -> bool
    ensures { result ≡ owned most_bases (ids_net ids) v }
{
    let mut b = MOST_BASES;
    while 0 < b {
        if ids[b - 1] == v {
            return true;
        }
        b -= 1;
    }
    false
}

// Numbers 3 and 14, 0 for none.
pub fn id_refusal(ids: [u32; MOST_BASES], v: u32) -> u8
    ensures { result ≡ id_refusal (ids_net ids) v }
{
    let own = own_refusal(v);
    if own != 0 {
        return own;
    }
    if is_named(ids, v) {
        return SAME_IDENTIFIER;
    }
    0
}

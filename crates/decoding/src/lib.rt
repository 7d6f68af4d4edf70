// The identifiers of a body, four bytes each, high byte first.

#![tactic(auto)]

ghost use Rattle.std.specs.Prelude.{◌≡◌, ◌+◌, ◌*◌, ◌≤◌, length, drop};
ghost use Rattle.frame.specs.Reading.{identifier};
ghost use Rattle.parts.specs.Parts.{part_of};
ghost use Rattle.decoding.specs.Decoding.{id_array};

use limits::{IDENTIFIER_BYTES, MOST_BASES};
use parts::part;

// The number of four bytes.
fn joined(a: u8, b: u8, c: u8, d: u8) -> u32
    ensures { result ≡ a * 16777216 + b * 65536 + c * 256 + d }
{
    (a as u32) * 16777216 + (b as u32) * 65536 + (c as u32) * 256 + (d as u32)
}

fn identifier_at(s: &[u8], at: usize) -> u32
    requires { at + 4 ≤ length s.now }
    ensures { result ≡ identifier (drop at s.now) }
{
    joined(s[at], s[at + 1], s[at + 2], s[at + 3])
}

// The identifiers in an array of their room, with zeros behind them.
pub fn id_array(body: &[u8]) -> [u32; MOST_BASES]
    ensures { result ≡ id_array body.now }
{
    let mut ids = [0u32; MOST_BASES];
    let mut i: usize = 0;
    while i < MOST_BASES {
        if body.len() < IDENTIFIER_BYTES * (i + 1) {
            return ids;
        }
        ids[i] = identifier_at(body, IDENTIFIER_BYTES * i);
        i += 1;
    }
    ids
}

// The same of so many identifiers of a burst, from a place on.
pub fn identifiers_at(burst: &[u8], start: usize, count: u8) -> [u32; MOST_BASES]
    ensures { result ≡ id_array (part_of burst.now start (4 * count)) }
{
    id_array(part(burst, start, IDENTIFIER_BYTES * (count as usize)))
}

// Whether a burst is a frame of the net: its length, its trailer, its identifiers.

#![tactic(auto)]

ghost use Rattle.std.specs.Prelude.{◌≡◌, ◌≤◌, length};
ghost use Rattle.limits.specs.Limits.{most_bases, frame_bytes, shortest_burst};
ghost use Rattle.frame.specs.Reading.{
  count_byte,
  back_distance,
  body_of,
  ids_in,
  length_refusal,
  distance_refusal,
  trailer_refusal,
  list_refusal,
  read_refusal,
};
ghost use Rattle.frame.specs.Reading.Laws.{Framed};

use decoding::id_array;
use frame::kind::{kind_refusal, length_of};
use limits::{LONGEST_BURST, SHORTEST_BURST, TRAILER_BYTES, net_refusal, refusal};
use message_lists::list_refusal;

// A byte as a number that counts or measures.
fn wide(x: u8) -> usize
    ensures { result ≡ x }
{
    x as usize
}

fn back_distance(burst: &[u8]) -> usize
    requires { shortest_burst ≤ length burst.now }
    ensures { result ≡ back_distance burst.now }
{
    let len = burst.len();
    wide(burst[len - 2]) * 256 + wide(burst[len - 1])
}

// Number 7, 0 for none.
fn length_refusal(burst: &[u8]) -> u8
    ensures { result ≡ length_refusal burst.now }
{
    if burst.len() < SHORTEST_BURST {
        return refusal::BURST;
    }
    if LONGEST_BURST < burst.len() {
        return refusal::BURST;
    }
    0
}

// Number 10 of a burst whose frame has so many bytes, 0 for none.
fn distance_refusal(burst: &[u8], size: usize) -> u8
    requires { (shortest_burst ≤ length burst.now) × (size ≡ frame_bytes (count_byte burst.now)) }
    ensures { result ≡ distance_refusal burst.now }
{
    let back = back_distance(burst);
    if back != size {
        return refusal::BACK_DISTANCE;
    }
    if burst.len() < back {
        return refusal::BACK_DISTANCE;
    }
    0
}

// Numbers 7 to 10, 0 for none: the burst's length and its trailer.
fn trailer_refusal(n: usize, burst: &[u8]) -> u8
    requires { n ≤ most_bases }
    ensures { result ≡ trailer_refusal n burst.now }
{
    let length = length_refusal(burst);
    if length != 0 {
        return length;
    }
    let len = burst.len();
    let kind = burst[len - 4];
    let number = kind_refusal(kind, wide(burst[len - 3]), n as u8);
    if number != 0 {
        return number;
    }
    distance_refusal(burst, length_of(kind, n as u8))
}

// The body of a burst whose trailer is right.
fn body_in<'a>(burst: &'a [u8]) -> &'a [u8]
    requires { Framed burst.now }
    ensures { result.now ≡ body_of burst.now }
{
    let len = burst.len();
    let back = back_distance(burst);
    &burst[len - back..len - TRAILER_BYTES]
}

// Numbers 11 and 12, for a burst whose trailer is right.
fn body_refusal(burst: &[u8]) -> u8
    requires { Framed burst.now }
    ensures { result ≡ list_refusal (ids_in burst.now) }
{
    let count = wide(burst[burst.len() - 3]);
    let ids = id_array(body_in(burst));
    list_refusal(&ids[..count])
}

// The number by which a burst is turned down in a net of n bases: 1, then 7 to 12; 0 for none.
pub fn check(n: usize, burst: &[u8]) -> u8
    ensures { result ≡ read_refusal n burst.now }
{
    let net = net_refusal(n);
    if net != 0 {
        return net;
    }
    let trailer = trailer_refusal(n, burst);
    if trailer != 0 {
        return trailer;
    }
    body_refusal(burst)
}

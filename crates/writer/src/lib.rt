// The frame of a message at the front of an output, or the number by which it is turned down. What stands past it in the output stays as it
// was.

#![tactic(auto)]

ghost use Rattle.std.specs.Prelude.{◌≡◌, length};
ghost use Rattle.writer.specs.Writing.{write_refusal, written_of, write_output};

use frame::kind::{kind_refusal, length_of};
use frame::size::FrameSize;
use framing::put;
use limits::{net_refusal, refusal};
use message_lists::list_refusal;

// What a write answers: the frame's size, or the number by which it is turned down.
#[derive(Clone, Copy)]
pub enum Written {
    Frame(FrameSize),
    Refused(u8),
}

fn write_refusal(n: usize, kind: u8, ids: &[u32], room: usize) -> u8
    ensures { result ≡ write_refusal n kind ids.now room }
{
    let net = net_refusal(n);
    if net != 0 {
        return net;
    }
    if room < length_of(kind, n as u8) {
        return refusal::OUTPUT;
    }
    let number = kind_refusal(kind, ids.len(), n as u8);
    if number != 0 {
        return number;
    }
    list_refusal(ids)
}

// The frame of a message, or the number by which it is turned down: 1, 6, 8, 9, 11 or 12. Nothing is written then.
pub fn write(n: usize, kind: u8, ids: &[u32], out: &mut [u8]) -> Written
    ensures { (result ≡ written_of n kind ids.now (length out.old))
        × (out.new ≡ write_output n kind ids.now out.old) }
{
    let refusal = write_refusal(n, kind, ids, out.len());
    if refusal != 0 {
        return Written::Refused(refusal);
    }
    Written::Frame(put(kind, n as u8, ids, out))
}

// Bytes of numbers, high byte first.
ghost use Rattle.std.specs.Prelude.{◌≡◌, [], ◌∷◌, ◌++◌, ◌+◌, ◌≤◌, length, take, drop};
ghost use Rattle.frame.specs.Encoding.{four_bytes};

pub(crate) fn put_four(out: &mut [u8], at: usize, a: u8, b: u8, c: u8, d: u8)
    requires { at + 4 ≤ length out.old }
    ensures { out.new ≡ take at out.old ++ ((a ∷ (b ∷ (c ∷ (d ∷ [])))) ++ drop (at + 4) out.old) }
{
    out[at] = a;
    out[at + 1] = b;
    out[at + 2] = c;
    out[at + 3] = d;
}

pub(crate) fn put_identifier(out: &mut [u8], at: usize, x: u32)
    requires { at + 4 ≤ length out.old }
    ensures { out.new ≡ take at out.old ++ (four_bytes x ++ drop (at + 4) out.old) }
{
    put_four(
        out,
        at,
        (x / 16777216 % 256) as u8,
        (x / 65536 % 256) as u8,
        (x / 256 % 256) as u8,
        (x % 256) as u8,
    );
}

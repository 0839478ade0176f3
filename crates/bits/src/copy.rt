// Bytes copied into a slice.
ghost use Rattle.std.specs.Prelude.{◌≡◌, ◌+◌, ◌≤◌, length};
ghost use Rattle.bits.specs.Bits.{overlaid};

// The bytes of xs go to out from at, and all else stays.
pub fn write_bytes(out: &mut [u8], at: usize, xs: &[u8])
    requires { at + length xs.now ≤ length out.old }
    ensures { out.new ≡ overlaid out.old at xs.now }
{
    out[at..at + xs.len()].copy_from_slice(xs);
}

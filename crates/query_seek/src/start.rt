// The start of a seek at the front of a key.
ghost use Rattle.std.specs.Prelude.{◌≡◌, ◌≤◌, length};
ghost use Rattle.bits.specs.Bits.{overlaid};

// The bytes of a start go to the front of a key, and all else stays. A loop, since a copy by `copy_from_slice` between two lent slices is compiled to a call of memmove, and the archives call memcpy and memset alone.
pub fn write_start(key: &mut [u8], start: &[u8])
    requires { length start.now ≤ length key.old }
    ensures { key.new ≡ overlaid key.old 0 start.now }
{
    for i in 0..start.len() {
        key[i] = start[i];
    }
}

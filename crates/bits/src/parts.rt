// A part of a slice.
ghost use Rattle.std.specs.Prelude.{◌≡◌, ◌+◌, ◌≤◌, length};
ghost use Rattle.bits.specs.Bits.{part};

// The len bytes of s from an offset.
pub fn part(s: &[u8], at: usize, len: usize) -> &[u8]
    requires { at + len ≤ length s.now }
    ensures { result.now ≡ part s.now at len }
{
    let end = at + len;
    &s[at..end]
}

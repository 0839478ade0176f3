// The bits of a body flipped.
ghost use Rattle.std.specs.Prelude.{◌≡◌, ◌*◌, ◌≤◌, ◌<◌, length, get_or, set};
ghost use Rattle.spec.specs.Bytes.{blocks};
ghost use Rattle.build_passes.specs.FlippedBits.{flip_byte, flipped};

// The low k bits of byte i are flipped, and its other bits become zero.
fn flip_last(out: &mut [u8], i: usize, k: usize)
    requires { (i < length out.old) × (k < 8) }
    ensures { out.new ≡ set out.old i (flip_byte k (get_or out.old i 0)) }
{
    let m = 1u8 << k;
    out[i] = m - 1 - out[i] % m;
}

// The first n bits of out are flipped, and the bits behind them in their last byte become zero.
pub fn flip(out: &mut [u8], n: usize)
    requires { n ≤ 8 * length out.old }
    ensures { out.new ≡ flipped (blocks 8 n) n out.old }
{
    let whole = n / 8;
    for i in 0..whole {
        out[i] = !out[i];
    }
    if 0 < n % 8 {
        flip_last(out, whole, n % 8);
    }
}

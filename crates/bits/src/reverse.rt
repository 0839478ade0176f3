// A byte's bits in the other order.
ghost use Rattle.std.specs.Prelude.{◌≡◌, ◌<◌};
ghost use Rattle.bits.specs.Bits.{reversed};

// Five copies of a byte, each one bit higher than ten bits behind the one before.
const COPIES: usize = 0x0202020202;

// Each bit of the byte in one of the copies: the one from which the remainder by 2^10 - 1 takes it to its new position.
const KEPT: usize = 0x010884422010;

// The bits of a byte in the other order: bit 7 becomes bit 0.
pub fn reversed(b: u8) -> usize
    ensures { (result ≡ reversed b) × (result < 256) }
{
    ((usize::from(b) * COPIES) & KEPT) % 1023
}

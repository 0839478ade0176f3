// The suffix of an open leaf against a key that begins with the cut key: its hash bits, its real bits, the bytes of these filled up with ones or zeros, and its highest and lowest keys.
ghost use Rattle.std.specs.Prelude.{◌≡◌, Bool, not, ℕ, ◌+◌, ◌-◌, ◌*◌, ◌/◌, ◌%◌, ◌^◌, ◌≤◌, ◌<◌, length, get_or, drop};
ghost use Rattle.spec.specs.Bytes.{bit, fill, same_bits};
ghost use Rattle.spec.specs.Leaves.{hash_bits};
ghost use Rattle.nav_nodes.specs.Slots.{slot_of};
ghost use Rattle.query_descent.specs.Bounds.{slot_passed, slot_reached};
ghost use Rattle.nav_nodes.specs.Accepted.{nodes, hash_slot, real_slot};
ghost use Rattle.query_descent.specs.OpenBetween.{OpenBetween, open_between};
ghost use Rattle.query_descent.specs.Root.{has_suffix};

use bits::numbers::read_from;
use bits::reverse::reversed;
use image::suffix::{byte_or_zero, hash_number, real_number};
use image::{AcceptedImage, ValuePos};

// The n highest bits of a byte, and the filling below them.
fn filled_below(x: usize, n: usize, ones: bool) -> usize
    requires { (x < 256) × (n ≤ 8) }
    ensures { result ≡ x / 2 ^ (8 - n) * 2 ^ (8 - n) + bit ones * (2 ^ (8 - n) - 1) }
{
    let unit = 1usize << (8 - n);
    let kept = x / unit * unit;
    if ones { kept + (unit - 1) } else { kept }
}

// The bits of a slot from bit i on as a number, the first lowest; what stands behind the slot's bits is not said.
pub fn slot_bits(image: &AcceptedImage, slot: ValuePos, i: usize) -> u64
    requires { (slot.0 < image.now.frame.leaves) × (i < image.now.frame.width) }
    ensures { (ones : Bool) (j : ℕ) → i + j < image.now.frame.width → result / 2 ^ j % 2 ≡ bit (get_or (slot_of image.now.frame.width (nodes image.now.bytes.now image.now.frame) slot.0) (i + j) ones) }
{
    let k = slot.0 * image.frame.width + i;
    read_from(&image.bytes[image.frame.sv..], k / 8) >> (k % 8)
}

// Byte i of a slot's real bits, the high bit first, filled up.
pub fn real_byte(image: &AcceptedImage, slot: ValuePos, i: usize, ones: bool) -> usize
    requires { (slot.0 < image.now.frame.leaves) × (i < 64) }
    ensures { (result ≡ fill ones 8 (drop (8 * i) (real_slot image.now.bytes.now image.now.frame slot.0))) × (result < 256) }
{
    let n = image.frame.real_width;
    let first = 8 * i;
    if n <= first {
        return filled_below(0, 0, ones);
    }
    let x = slot_bits(image, slot, image.frame.hash_width + first);
    filled_below(reversed((x % 256) as u8), (n - first).min(8), ones)
}

// Whether a key has the leaf's real bits behind its first d bytes, which are the cut key: the lowest bits of the slot's number are the number of the key's bits there.
pub fn real_equals(image: &AcceptedImage, slot: ValuePos, key: &[u8], d: usize) -> bool
    requires { (slot.0 < image.now.frame.leaves) × (d ≤ length key.now) }
    ensures { result ≡ has_suffix (real_slot image.now.bytes.now image.now.frame slot.0) (drop d key.now) }
{
    if image.frame.real_width == 0 {
        return true;
    }
    let x = slot_bits(image, slot, image.frame.hash_width) as usize;
    x % (1usize << image.frame.real_width) == real_number(key, d, image.frame.real_width)
}

// Whether a key has the leaf's hash bits: the lowest bits of the slot's number are the number of the key's hash bits.
#[tactic(auto, using(crate::proofs::NoHashBits::no_hash_bits))]
pub fn hash_equals(image: &AcceptedImage, slot: ValuePos, key: &[u8]) -> bool
    requires { slot.0 < image.now.frame.leaves }
    ensures { result ≡ same_bits (hash_bits image.now.frame.hash_width key.now) (hash_slot image.now.bytes.now image.now.frame slot.0) }
{
    if image.frame.hash_width == 0 {
        return true;
    }
    let x = slot_bits(image, slot, 0) as usize;
    x % (1usize << image.frame.hash_width) == hash_number(key, image.frame.hash_width)
}

// Whether the leaf's highest key lies below the key, whose first d bytes are the cut key.
pub fn high_below(image: &AcceptedImage, slot: ValuePos, key: &[u8], d: usize) -> bool
    requires { (slot.0 < image.now.frame.leaves) × (d ≤ length key.now) × (length key.now ≤ 64) }
    ensures { result ≡ slot_passed image.now.frame.hash_width (length key.now) (slot_of image.now.frame.width (nodes image.now.bytes.now image.now.frame) slot.0) (drop d key.now) }
{
    for i in d..key.len() {
        let x = real_byte(image, slot, i - d, true);
        let y = usize::from(key[i]);
        if x < y {
            return true;
        }
        if y < x {
            return false;
        }
    }
    false
}

// Whether the leaf's lowest key lies above the key, whose first d bytes are the cut key.
pub fn low_above(image: &AcceptedImage, slot: ValuePos, key: &[u8], d: usize) -> bool
    requires { (slot.0 < image.now.frame.leaves) × (d ≤ length key.now) × (length key.now ≤ 64) }
    ensures { slot_reached image.now.frame.hash_width (length key.now) (slot_of image.now.frame.width (nodes image.now.bytes.now image.now.frame) slot.0) (drop d key.now) ≡ not result }
{
    let n = image.frame.real_width;
    for i in d..64 {
        if 8 * (i - d) >= n {
            return false;
        }
        let x = real_byte(image, slot, i - d, false);
        let y = usize::from(byte_or_zero(key, i));
        if y < x {
            return true;
        }
        if x < y {
            return false;
        }
    }
    false
}

// Whether an open leaf, whose cut key is the first `depth` bytes of both bounds, neither ends below the lower nor starts above the upper.
pub fn open_between(
    image: &AcceptedImage,
    lo: &[u8],
    hi: &[u8],
    slot: ValuePos,
    depth: usize,
) -> bool
    requires { OpenBetween image.now.bytes.now image.now.frame lo.now hi.now slot.0 depth }
    ensures { result ≡ open_between image.now.bytes.now image.now.frame lo.now hi.now slot.0 depth }
{
    !high_below(image, slot, lo, depth) && !low_above(image, slot, hi, depth)
}

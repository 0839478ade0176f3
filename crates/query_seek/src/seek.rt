// The seek question over an accepted image: the first leaf that the start has not passed, by number, and the greater of the start and the leaf's lowest key.
ghost use Rattle.std.specs.Prelude.{◌≡◌, ◌≤◌, ◌<◌, length, take};
ghost use Rattle.spec.specs.Questions.{greater};
ghost use Rattle.query_seek.specs.LeafKeys.{LeafAt, LowestKey};
ghost use Rattle.query_seek.specs.Sought.{IsSought};
ghost use Rattle.query_descent.specs.Summed.{empty_key_sum};

use super::next::next_leaf;
use super::start::write_start;
use image::{AcceptedImage, ValuePos};
use keys::compare::compare;
use nav_branches::LeafStop;
use query_descent::suffix::real_byte;
use query_sums::levels::sum_below;
use std::cmp::Ordering;

// Behind a cut key of `depth` bytes go the bytes of an open leaf's real bits, filled up with zero bits; the length of the lowest key, which ends before trailing zero bytes and with the 64th byte.
fn append_real(image: &AcceptedImage, slot: ValuePos, key: &mut [u8], depth: usize) -> usize
    requires { (slot.0 < image.now.frame.leaves) × (length key.old ≡ 64) × (depth ≤ 64) }
    ensures { LowestKey image.now.bytes.now image.now.frame (LeafStop.Open slot) (take depth key.old) key.new result }
{
    let mut end = depth;
    for i in depth..64 {
        if 8 * (i - depth) >= image.frame.real_width {
            return end;
        }
        let x = real_byte(image, slot, i - depth, false);
        key[i] = x as u8;
        if x != 0 {
            end = i + 1;
        }
    }
    end
}

// The lowest key of the leaf at a stop, whose cut key is the first `depth` bytes of `key`; its length.
fn lowest_key(image: &AcceptedImage, stop: LeafStop, key: &mut [u8], depth: usize) -> usize
    requires { LeafAt image.now.bytes.now image.now.frame stop key.old depth }
    ensures { LowestKey image.now.bytes.now image.now.frame stop (take depth key.old) key.new result }
{
    match stop {
        LeafStop::Nowhere => depth,
        LeafStop::Exact => depth,
        LeafStop::Open(slot) => append_real(image, slot, key, depth),
    }
}

// The greater of the start and the first n bytes of `key` goes to the front of `key`; its length.
fn greater_key(start: &[u8], key: &mut [u8], n: usize) -> usize
    requires { (length start.now ≤ 64) × (length key.old ≡ 64) × (n ≤ 64) }
    ensures { (take result key.new ≡ greater start.now (take n key.old)) × (result ≤ 64) × (length key.new ≡ 64) }
{
    match compare(start, &key[..n]) {
        Ordering::Greater => {
            write_start(key, start);
            start.len()
        }
        _ => n,
    }
}

// What a seek finds: the leaf's number in key order, and how many bytes of a buffer are its key.
#[derive(Clone, Copy)]
pub struct Sought {
    pub number: usize,
    pub len: usize,
}

// The first leaf whose highest possible key is not below the start, if there is one: its number, and at the front of `key` the greater of the start and its lowest key. `base` is the sum of slot numbers for the empty key.
pub fn seek(image: &AcceptedImage, base: usize, start: &[u8], key: &mut [u8]) -> Option<Sought>
    requires { (base ≡ empty_key_sum image.now.bytes.now image.now.frame) × (length start.now ≤ 64) × (length key.old ≡ 64) }
    ensures { IsSought image.now.bytes.now image.now.frame start.now result key.new × (length key.new ≡ 64) }
{
    let next = next_leaf(image, start, key);
    let end = next.end;
    if let LeafStop::Nowhere = end.stop {
        return None;
    }
    let low = lowest_key(image, end.stop, key, end.depth);
    let len = greater_key(start, key, low);
    let number = sum_below(image, next.level) - base;
    Some(Sought { number, len })
}

// The position of a one inside a word: the field that holds it is halved by the counts of ones in all fields, which are found at once, down to a pair of bits, whose positions are in the table. A one among ones that stand side by side from the lowest bit on is at its number.
ghost use Rattle.std.specs.Prelude.{◌≡◌, ℕ, ◌+◌, ◌%◌, ◌^◌, ◌≤◌, ◌<◌};
ghost use Rattle.std.specs.Int.Count.{ones};
ghost use Rattle.bits_select.specs.CountLaws.{Counts, CountedFields, paired};
ghost use Rattle.bits_select.specs.NarrowLaws.{Narrowed};

use super::byte_ones::select_in_pair;

// Masks of a word, each with every other field from the first on. Every other bit.
const BITS: u64 = 0x5555555555555555;

// Every other pair of bits.
const PAIRS: u64 = 0x3333333333333333;

// Every other half byte.
const HALF_BYTES: u64 = 0x0f0f0f0f0f0f0f0f;

// Every other byte.
const BYTES: u64 = 0x00ff00ff00ff00ff;

// Every other field of two bytes.
const DOUBLE_BYTES: u64 = 0x0000ffff0000ffff;

// Fields of 2 w bits, each the sum of its halves. The mask has every other field of w bits.
fn paired(n: u64, w: usize, mask: u64) -> u64
    requires { (w < 64) × (mask < 2 ^ 63) }
    ensures { result ≡ paired w mask n }
{
    (n & mask) + ((n >> w) & mask)
}

// The ones of each field of 2, 4, 8, 16 and 32 bits of a word, counted for all fields at once.
#[derive(Clone, Copy)]
struct FieldCounts {
    of_2: u64,
    of_4: u64,
    of_8: u64,
    of_16: u64,
    of_32: u64,
}

// The ones of the fields of x.
fn field_counts(x: u64) -> FieldCounts
    ensures { CountedFields x result.of_2 result.of_4 result.of_8 result.of_16 result.of_32 }
{
    let of_2 = paired(x, 1, BITS);
    let of_4 = paired(of_2, 2, PAIRS);
    let of_8 = paired(of_4, 4, HALF_BYTES);
    let of_16 = paired(of_8, 8, BYTES);
    let of_32 = paired(of_16, 16, DOUBLE_BYTES);
    FieldCounts {
        of_2,
        of_4,
        of_8,
        of_16,
        of_32,
    }
}

// The field that holds the one that is sought: its first bit, and the ones below that one in the field.
#[derive(Clone, Copy)]
struct Field {
    at: usize,
    left: usize,
}

// The half, of w bits, that holds the one. The counts have the ones of each field of w bits.
fn half_of(counts: u64, w: usize, field: Field) -> Field
    requires { (w < 64) × (field.at < 64) }
    ensures within { result.at ≤ field.at + w }
    ensures narrowed { (x m k : ℕ) → Counts w (k + k) counts x → Narrowed x m (w + w) k field.at field.left → Narrowed x m w (k + k) result.at result.left }
{
    let low = ((counts >> field.at) % (1u64 << w)) as usize;
    if field.left < low {
        return field;
    }
    Field {
        at: field.at + w,
        left: field.left - low,
    }
}

// The pair of bits of x that holds its m-th set bit, counted from 0.
fn pair_of(x: u64, m: usize) -> Field
    requires { m < ones x }
    ensures { Narrowed x m 2 32 result.at result.left }
{
    let n = field_counts(x);
    let in_32 = half_of(n.of_32, 32, Field { at: 0, left: m });
    let in_16 = half_of(n.of_16, 16, in_32);
    let in_8 = half_of(n.of_8, 8, in_16);
    let in_4 = half_of(n.of_4, 4, in_8);
    half_of(n.of_2, 2, in_4)
}

// How many ones stand side by side from the lowest bit of a word on.
fn lowest_ones(x: u64) -> usize
    ensures { ((m : ℕ) → m < result → ones (x % 2 ^ (m + 1)) ≡ m + 1) × (result ≤ 64) }
{
    x.trailing_ones() as usize
}

// The position of the m-th set bit, counted from 0, of a word that has more than m. In a word of S-LOUDS ones often stand side by side: nodes with one entry each.
pub fn select_in_word(x: u64, m: usize) -> usize
    requires { m < ones x }
    ensures { (ones (x % 2 ^ result) ≤ m) × (m < ones (x % 2 ^ (result + 1))) × (result < 64) }
{
    if m < lowest_ones(x) {
        return m;
    }
    let field = pair_of(x, m);
    let bits = ((x >> field.at) % 4) as usize;
    field.at + usize::from(select_in_pair(bits, field.left))
}

// The same with no table: the pair of bits is halved as well. Its frame is small.
pub fn select_by_halves(x: u64, m: usize) -> usize
    requires { m < ones x }
    ensures { (ones (x % 2 ^ result) ≤ m) × (m < ones (x % 2 ^ (result + 1))) × (result < 64) }
{
    let bit = half_of(x, 1, pair_of(x, m));
    bit.at
}

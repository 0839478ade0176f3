// The prefix that two keys share, and their order.
ghost use Rattle.std.specs.Prelude.{◌≡◌, min, ◌+◌, ◌*◌, ◌-◌, ◌≤◌, ◌<◌, ◌^◌, ◌%◌, length, take, drop};
ghost use Rattle.spec.specs.Bytes.{shared};
ghost use Rattle.keys.specs.Order.{order};

use bits::numbers::read64;
use std::cmp::Ordering;

// The bytes that are compared by words without a loop.
const WINDOW: usize = 40;

// How many low bytes, up to eight, two words have in common before their first difference.
fn equal_bytes(x: u64, y: u64) -> usize
    ensures { (result ≤ 8) × (x % 2 ^ (8 * result) ≡ y % 2 ^ (8 * result)) × (result < 8 → x % 2 ^ (8 + 8 * result) ≡ y % 2 ^ (8 + 8 * result) → ⊥) }
{
    ((x ^ y).trailing_zeros() / 8) as usize
}

// How many bytes, up to eight, two byte strings have in common from offset i on.
fn equal_word(p: &[u8], q: &[u8], i: usize) -> usize
    requires { (i + 8 ≤ length p.now) × (i + 8 ≤ length q.now) }
    ensures { result ≡ min (shared (drop i p.now) (drop i q.now)) 8 }
{
    equal_bytes(read64(p, i), read64(q, i))
}

// The length of the longest prefix that two keys share, of which the shorter has n bytes, by the word that ends with its last byte. All bytes before that word are known to be shared.
fn shared_end(p: &[u8], q: &[u8], n: usize) -> usize
    requires { (8 ≤ n) × (n ≡ min (length p.now) (length q.now)) × (n - 8 ≤ shared p.now q.now) }
    ensures { result ≡ shared p.now q.now }
{
    let i = n - 8;
    i + equal_word(p, q, i)
}

// The length of the longest prefix that two keys share, of which the shorter has n bytes, by words up to the first that differs. The last word may begin among bytes that are known to be shared.
fn shared_words(p: &[u8], q: &[u8], n: usize) -> usize
    requires { (8 ≤ n) × (n ≡ min (length p.now) (length q.now)) }
    ensures { result ≡ shared p.now q.now }
{
    let mut i = 0usize;
    while 8 <= n - i {
        let k = equal_word(p, q, i);
        i += k;
        if k < 8 {
            return i;
        }
    }
    shared_end(p, q, n)
}

// The length of the longest prefix that two keys share, of which the shorter has n bytes, byte by byte.
fn shared_bytes(p: &[u8], q: &[u8], n: usize) -> usize
    requires { n ≡ min (length p.now) (length q.now) }
    ensures { result ≡ shared p.now q.now }
{
    for i in 0..n {
        if p[i] != q[i] {
            return i;
        }
    }
    n
}

// The length of the longest prefix that two keys share: by words where both have one, else by bytes.
pub fn shared(p: &[u8], q: &[u8]) -> usize
    ensures { result ≡ shared p.now q.now }
{
    let n = p.len().min(q.len());
    if n < 8 {
        return shared_bytes(p, q, n);
    }
    shared_words(p, q, n)
}

// How many bytes a word and the words behind it have in common with others: `rest`, those behind it, count where all eight of the word are equal. No branch is taken, as none could be foretold.
fn equal_with_rest(equal: usize, rest: usize) -> usize
    requires { (equal ≤ 8) × (rest ≤ 16) }
    ensures { (result ≤ 8 + rest) × (equal < 8 → result ≡ equal) × (8 ≤ equal → result ≡ 8 + rest) }
{
    equal + equal / 8 * rest
}

// How many bytes, up to 40, two byte strings have in common that share their first word. Long keys that follow each other mostly differ in one of the last three words.
fn equal_window(p: &[u8], q: &[u8]) -> usize
    requires { (40 ≤ length p.now) × (40 ≤ length q.now) × (8 ≤ shared p.now q.now) }
    ensures { result ≡ min (shared p.now q.now) 40 }
{
    let second = equal_word(p, q, 8);
    if second < 8 {
        return 8 + second;
    }
    let last = equal_with_rest(equal_word(p, q, 24), equal_word(p, q, 32));
    16 + equal_with_rest(equal_word(p, q, 16), last)
}

// The length of the longest prefix that two keys share: the first n bytes of p and the first m bytes of q, which is no longer than p. The first word is known to be shared where q has one.
fn shared_behind_word(p: &[u8], n: usize, q: &[u8], m: usize) -> usize
    requires { (n ≤ length p.now) × (m ≤ length q.now) × (length q.now ≤ length p.now) × (8 ≤ length q.now → 8 ≤ shared p.now q.now) }
    ensures { result ≡ shared (take n p.now) (take m q.now) }
{
    if WINDOW <= q.len() {
        let i = equal_window(p, q).min(n.min(m));
        if i < WINDOW {
            return i;
        }
    }
    shared(&p[..n], &q[..m])
}

// The same for any first word, which tells mostly all: short, so that the passes over a list take the function in. Bytes behind the keys are read where there are enough of them.
pub fn shared_fronts(p: &[u8], n: usize, q: &[u8], m: usize) -> usize
    requires { (n ≤ length p.now) × (m ≤ length q.now) × (length q.now ≤ length p.now) }
    ensures { result ≡ shared (take n p.now) (take m q.now) }
{
    if q.len() < 8 {
        return shared_behind_word(p, n, q, m);
    }
    let first = equal_word(p, q, 0);
    if first < 8 {
        return first.min(n.min(m));
    }
    shared_behind_word(p, n, q, m)
}

// The order by unsigned bytes of two keys, a proper prefix first: the byte behind the i bytes that they share decides.
fn order_behind(p: &[u8], q: &[u8], i: usize) -> Ordering
    requires { i ≡ shared p.now q.now }
    ensures { result ≡ order p.now q.now }
{
    if q.len() <= i {
        if p.len() <= i {
            return Ordering::Equal;
        }
        return Ordering::Greater;
    }
    if p.len() <= i {
        return Ordering::Less;
    }
    if p[i] < q[i] {
        return Ordering::Less;
    }
    Ordering::Greater
}

// The order of two keys, the first n bytes of p and the first m bytes of q, which is no longer than p.
pub fn compare_fronts(p: &[u8], n: usize, q: &[u8], m: usize) -> Ordering
    requires { (n ≤ length p.now) × (m ≤ length q.now) × (length q.now ≤ length p.now) }
    ensures { result ≡ order (take n p.now) (take m q.now) }
{
    let i = shared_fronts(p, n, q, m);
    order_behind(&p[..n], &q[..m], i)
}

// The order of two keys.
pub fn compare(p: &[u8], q: &[u8]) -> Ordering
    ensures { result ≡ order p.now q.now }
{
    order_behind(p, q, shared(p, q))
}

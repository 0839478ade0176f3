// The key of a record, and what it shares with the next; the lengths of all keys.
ghost use Rattle.std.specs.Prelude.{◌≡◌, ◌+◌, ◌≤◌, ◌<◌, length};
ghost use Rattle.spec.specs.Keys.{keys_of};
ghost use Rattle.build_laws.specs.KeyRecords.{record_end, AcceptedList, WholeRecords, shared_behind, key_at};
ghost use Rattle.build_list.specs.LongKeys.{all_long};

use super::BEFORE_KEY;
use build_laws::Key;
use keys::compare::shared_fronts;

// The length of the prefix that the key of n bytes from offset a on shares with the key of the record behind it, 0 if there is none.
fn next_shared(s: &[u8], a: usize, n: usize) -> usize
    requires { (a + n ≤ length s.now) × (a + n < length s.now → record_end s.now (a + n) ≤ length s.now) }
    ensures { result ≡ shared_behind s.now a n }
{
    let end = a + n;
    if end < s.len() {
        let start = end + BEFORE_KEY;
        return shared_fronts(&s[a..], n, &s[start..], usize::from(s[end + 2]));
    }
    0
}

// The key of the record at `at`, which starts nodes from the level `first` on.
pub fn read_key(s: &[u8], at: usize, first: usize) -> Key
    requires { WholeRecords s.now at }
    ensures { result ≡ key_at s.now at first }
{
    let a = at + BEFORE_KEY;
    let n = usize::from(s[at + 2]);
    Key {
        at: a,
        len: n,
        first,
        next: next_shared(s, a, n),
    }
}

// Whether all keys of the list have at least n bytes, by the lengths of the records alone.
pub fn all_long(s: &[u8], n: usize) -> bool
    requires { AcceptedList s.now }
    ensures { result ≡ all_long n (keys_of s.now) }
{
    let mut at = 0usize;
    while at < s.len() {
        let m = usize::from(s[at + 2]);
        if m < n {
            return false;
        }
        at += BEFORE_KEY + m;
    }
    true
}

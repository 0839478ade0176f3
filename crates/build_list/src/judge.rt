// A key list, judged record by record.
ghost use Rattle.std.specs.Prelude.{◌≡◌, ◌+◌, ◌≤◌, ◌<◌, length};
ghost use Rattle.spec.specs.Keys.{parse_keys};
ghost use Rattle.bits.specs.Bits.{key};
ghost use Rattle.build_list.specs.KeyList.{RecordRead, RecordJudged, numbered, key_list};

use super::BEFORE_KEY;
use image::refusals::Refusal;
use keys::MAX_KEY_BYTES;
use keys::compare::compare_fronts;
use std::cmp::Ordering;

// No list has more keys.
const MAX_KEYS: usize = 65535;

// The length of the key of the record at `at`, behind `done` others; or 4, a record follows 65,535 others; 1, fewer than three bytes or a wrong mark; 2, length 0 or over 64; 1, key bytes missing.
#[tactic(auto, using(crate::specs::RecordLaws::records_refused))]
fn read_record(s: &[u8], at: usize, done: usize) -> Result<usize, Refusal>
    requires { (at < length s.now) × (done ≤ 65535) }
    ensures { RecordRead s.now at done result }
{
    if done == MAX_KEYS {
        return Err(Refusal::TooManyKeys);
    }
    if s.len() - at < BEFORE_KEY {
        return Err(Refusal::ListMalformed);
    }
    if s[at] != b'K' || s[at + 1] != b'Y' {
        return Err(Refusal::ListMalformed);
    }
    let n = usize::from(s[at + 2]);
    if n == 0 || MAX_KEY_BYTES < n {
        return Err(Refusal::KeyLengthWrong);
    }
    if s.len() - (at + BEFORE_KEY) < n {
        return Err(Refusal::ListMalformed);
    }
    Ok(n)
}

// The length of the key of the record at `at`, behind `done` others, the last of them with its key of m bytes from `last`; or the numbers of the record itself; then 3, key not above the last.
fn judge_record(s: &[u8], at: usize, done: usize, last: usize, m: usize) -> Result<usize, Refusal>
    requires { (at < length s.now) × (done ≤ 65535) × (last + m ≤ at) }
    ensures { RecordJudged s.now at done (key s.now last m) result }
{
    let n = read_record(s, at, done)?;
    let start = at + BEFORE_KEY;
    match compare_fronts(&s[last..], m, &s[start..], n) {
        Ordering::Less => Ok(n),
        Ordering::Equal | Ordering::Greater => Err(Refusal::KeysUnordered),
    }
}

// The list's number of keys, or the first of 4, 1, 2, 1, 3 that applies, record by record.
pub fn judge_list(s: &[u8]) -> Result<usize, Refusal>
    ensures { numbered result ≡ key_list (parse_keys s.now) }
{
    let mut at = 0usize;
    let mut last = 0usize;
    let mut m = 0usize;
    let mut count = 0usize;
    while at < s.len() {
        m = judge_record(s, at, count, last, m)?;
        last = at + BEFORE_KEY;
        at = last + m;
        count += 1;
    }
    Ok(count)
}

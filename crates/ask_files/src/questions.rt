// A question file, judged question by question, and its questions by offset.
ghost use Rattle.std.specs.Prelude.{◌≡◌, ◌<◌, ◌≤◌, length};
ghost use Rattle.spec.specs.Questions.{parse_questions};
ghost use Rattle.image.specs.Refusals.{by_number};
ghost use Rattle.ask_files.specs.FileLaws.{TakenFrom};
ghost use Rattle.ask_files.specs.Questions.{ReadsKey, ReadsUpper, ReadsBounds, Asks, ReadsQuestion, question_file, Located};

use bits::parts::part;
use image::refusals::Refusal;
use keys::MAX_KEY_BYTES;
use keys::compare::compare;
use std::cmp::Ordering;

// No file has more questions.
const MAX_QUESTIONS: usize = 1024;

// How many keys a question has.
#[derive(Clone, Copy, Debug, PartialEq, Eq)]
enum KeyCount {
    One,
    Two,
}

// A question by its keys, which are parts of the file.
#[derive(Clone, Copy)]
pub enum Question<'a> {
    Point(&'a [u8]),
    Seek(&'a [u8]),
    Begins(&'a [u8]),
    Range(&'a [u8], &'a [u8]),
    Count(&'a [u8], &'a [u8]),
}

// A question, and the offset of the next one.
#[derive(Clone, Copy)]
pub struct Asked<'a> {
    pub question: Question<'a>,
    pub next: usize,
}

// The key at `at`, a length byte and the key's bytes: 21, bytes missing; 22, a length over 64. Gives the offset behind it.
fn read_key(s: &[u8], at: usize) -> Result<usize, Refusal>
    ensures { ReadsKey s.now at result }
{
    if s.len() <= at {
        return Err(Refusal::QuestionMalformed);
    }
    let n = usize::from(s[at]);
    if MAX_KEY_BYTES < n {
        return Err(Refusal::KeyTooLong);
    }
    if s.len() - (at + 1) < n {
        return Err(Refusal::QuestionMalformed);
    }
    Ok(at + 1 + n)
}

// The upper bound at `middle`, behind the lower bound from `lower` on: the numbers of the key itself; then 23, lower bound above upper.
fn read_upper(s: &[u8], lower: usize, middle: usize) -> Result<usize, Refusal>
    requires { (lower ≤ middle) × (middle ≤ length s.now) }
    ensures { ReadsUpper s.now lower middle result }
{
    let end = read_key(s, middle)?;
    let upper = middle + 1;
    match compare(&s[upper..end], &s[lower..middle]) {
        Ordering::Less => Err(Refusal::BoundsReversed),
        Ordering::Equal | Ordering::Greater => Ok(end),
    }
}

// The two bounds at `at`, from left to right.
fn read_bounds(s: &[u8], at: usize) -> Result<usize, Refusal>
    ensures { ReadsBounds s.now at result }
{
    let middle = read_key(s, at)?;
    read_upper(s, at + 1, middle)
}

// How many keys the second letter of a mark asks for, if a mark has it.
fn keys_asked(letter: u8) -> Option<KeyCount>
    ensures { Asks letter result }
{
    match letter {
        b'P' => Some(KeyCount::One),
        b'S' => Some(KeyCount::One),
        b'B' => Some(KeyCount::One),
        b'R' => Some(KeyCount::Two),
        b'C' => Some(KeyCount::Two),
        _ => None,
    }
}

// The question at `at`: 21, a wrong mark or bytes missing; then the numbers of its keys.
fn judge_question(s: &[u8], at: usize) -> Result<usize, Refusal>
    requires { at < length s.now }
    ensures { ReadsQuestion s.now at result }
{
    if s.len() - at < 2 {
        return Err(Refusal::QuestionMalformed);
    }
    if s[at] != b'Q' {
        return Err(Refusal::QuestionMalformed);
    }
    match keys_asked(s[at + 1]) {
        Some(KeyCount::One) => read_key(s, at + 2),
        Some(KeyCount::Two) => read_bounds(s, at + 2),
        None => Err(Refusal::QuestionMalformed),
    }
}

// The file's number of questions, or the first number that applies, question by question: 24, it follows 1,024 others; then the question's own.
pub fn judge_file(s: &[u8]) -> Result<usize, Refusal>
    ensures { by_number result ≡ question_file (parse_questions s.now) }
{
    let mut at = 0usize;
    let mut count = 0usize;
    while at < s.len() {
        if count == MAX_QUESTIONS {
            return Err(Refusal::TooManyQuestions);
        }
        at = judge_question(s, at)?;
        count += 1;
    }
    Ok(count)
}

// The question at `at` of a file whose bytes from there on are taken: read again by its letter and its length bytes.
pub fn question_at<'a>(file: &'a [u8], at: usize) -> Asked<'a>
    requires { (at < length file.now) × TakenFrom file.now at }
    ensures { Located file.entry.now at result }
{
    let letter = file[at + 1];
    let key = at + 3;
    let n = usize::from(file[at + 2]);
    let next = key + n;
    let lower = part(file, key, n);
    if letter == b'P' {
        let question = Question::Point(lower);
        return Asked { question, next };
    }
    if letter == b'S' {
        let question = Question::Seek(lower);
        return Asked { question, next };
    }
    if letter == b'B' {
        let question = Question::Begins(lower);
        return Asked { question, next };
    }
    let m = usize::from(file[next]);
    let upper = part(file, next + 1, m);
    let next = next + 1 + m;
    if letter == b'R' {
        let question = Question::Range(lower, upper);
        return Asked { question, next };
    }
    let question = Question::Count(lower, upper);
    Asked { question, next }
}

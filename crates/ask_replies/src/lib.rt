// The reply to a question by value, and the replies to all questions of a file in the reply buffer.

#![tactic(auto)]

ghost use Rattle.std.specs.Prelude.{◌≡◌, ◌≤◌, length};
ghost use Rattle.spec.specs.Nodes.{read_leaves};
ghost use Rattle.spec.specs.Questions.{QP, QS, reply};
ghost use Rattle.query_descent.specs.Summed.{empty_key_sum};
ghost use Rattle.ask_files.specs.FileLaws.{TakenFrom};
ghost use Rattle.ask_files.specs.Questions.{Short, question_of};
ghost use Rattle.ask_files.specs.ReplyContracts.{Sized, reply_of};
ghost use Rattle.ask_replies.specs.Replies.{file_replies, RepliesWritten};

use ask_files::questions::{Question, question_at};
use ask_files::reply_bytes::{Answered, keyless, write_answered};
use image::AcceptedImage;
use keys::MAX_KEY_BYTES;
use query_count::count;
use query_point::point::descend;
use query_point::stem::begins_with;
use query_range::range::range;
use query_seek::seek::seek;
use query_sums::levels::empty_key_sum;

// The bytes of the key in a point's reply: the number of the rule behind it.
pub const POINT_KEY: usize = 1;

// The reply to a point: the number that the rule behind it says, and the rule's own number as its key.
fn point_reply(image: &AcceptedImage, point: &[u8], key: &mut [u8]) -> Answered
    requires { (length point.now ≤ 64) × (length key.old ≡ 64) }
    ensures { Sized result key.new × (reply_of result key.new ≡ reply image.now.frame.hash_width (read_leaves image.now.bytes.now) (QP point.now)) }
{
    let rule = descend(image, point);
    key[0] = rule.number();
    Answered {
        letter: b'P',
        number: usize::from(rule.says()),
        n: POINT_KEY,
    }
}

// The number in the reply to a seek that finds no leaf.
const NO_LEAF: usize = 0xFFFFFFFF;

// The reply to a seek: the leaf's number and key, or none, FFFFFFFF without a key. `base` is the sum of slot numbers for the empty key.
pub fn seek_reply(image: &AcceptedImage, base: usize, start: &[u8], key: &mut [u8]) -> Answered
    requires { (base ≡ empty_key_sum image.now.bytes.now image.now.frame) × (length start.now ≤ 64) × (length key.old ≡ 64) }
    ensures { Sized result key.new × (reply_of result key.new ≡ reply image.now.frame.hash_width (read_leaves image.now.bytes.now) (QS start.now)) }
{
    match seek(image, base, start, key) {
        None => keyless(b'S', NO_LEAF),
        Some(sought) => Answered {
            letter: b'S',
            number: sought.number,
            n: sought.len,
        },
    }
}

// The reply to a question, its key in a buffer. `base`, for a seek, is the sum of slot numbers for the empty key.
fn reply_to(image: &AcceptedImage, base: usize, question: Question, key: &mut [u8]) -> Answered
    requires { (base ≡ empty_key_sum image.now.bytes.now image.now.frame) × Short question × (length key.old ≡ 64) }
    ensures { Sized result key.new × (reply_of result key.new ≡ reply image.now.frame.hash_width (read_leaves image.now.bytes.now) (question_of question.entry)) }
{
    match question {
        Question::Point(point) => point_reply(image, point, key),
        Question::Seek(start) => seek_reply(image, base, start, key),
        Question::Begins(stem) => keyless(b'B', usize::from(begins_with(image, stem))),
        Question::Range(lo, hi) => keyless(b'R', usize::from(range(image, lo, hi))),
        Question::Count(lo, hi) => keyless(b'C', count(image, lo, hi)),
    }
}

// The replies to all questions of a file that is taken go to the start of out, one behind the other, and all else stays; their length.
pub fn write_replies(image: &AcceptedImage, file: &[u8], out: &mut [u8]) -> usize
    requires { TakenFrom file.now 0 × (length (file_replies image.now.frame.hash_width image.now.bytes.now file.now) ≤ length out.old) }
    ensures { RepliesWritten image.now.frame.hash_width image.now.bytes.now file.now out.old out.new result }
{
    let base = empty_key_sum(image);
    let mut key = [0u8; MAX_KEY_BYTES];
    let mut at = 0usize;
    let mut to = 0usize;
    while at < file.len() {
        let asked = question_at(file, at);
        let a = reply_to(image, base, asked.question, &mut key);
        to = write_answered(out, to, a, &key);
        at = asked.next;
    }
    to
}

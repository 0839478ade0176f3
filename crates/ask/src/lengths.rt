// Whether all replies to a question file fit into the reply buffer.
ghost use Rattle.std.specs.Prelude.{◌≡◌, ◌≤◌, length, leb};
ghost use Rattle.spec.specs.Nodes.{read_leaves};
ghost use Rattle.spec.specs.Questions.{reply, questions_of};
ghost use Rattle.query_descent.specs.Summed.{empty_key_sum};
ghost use Rattle.ask_files.specs.FileLaws.{TakenFrom};
ghost use Rattle.ask_files.specs.Questions.{Short, question_of};
ghost use Rattle.ask_replies.specs.Replies.{file_replies};

use ask_files::questions::{Question, question_at};
use ask_files::reply_bytes::REPLY_HEAD;
use ask_replies::{POINT_KEY, seek_reply};
use image::AcceptedImage;
use keys::MAX_KEY_BYTES;
use query_sums::levels::empty_key_sum;

// The length of the key in the reply to a question. A point's has one byte and a seek's varies, so that only a seek is answered for it; other replies have none. `base` is the sum of slot numbers for the empty key.
fn key_length(image: &AcceptedImage, base: usize, question: Question) -> usize
    requires { (base ≡ empty_key_sum image.now.bytes.now image.now.frame) × Short question }
    ensures { (result ≡ length (reply image.now.frame.hash_width (read_leaves image.now.bytes.now) (question_of question.entry)).key) × (result ≤ 64) }
{
    match question {
        Question::Seek(start) => {
            let mut key = [0u8; MAX_KEY_BYTES];
            seek_reply(image, base, start, &mut key).n
        }
        Question::Point(_) => POINT_KEY,
        Question::Begins(_) => 0,
        Question::Range(_, _) => 0,
        Question::Count(_, _) => 0,
    }
}

// The length of the replies to all questions of a file that is taken: eight bytes and a key for each.
fn replies_length(image: &AcceptedImage, file: &[u8]) -> usize
    requires { TakenFrom file.now 0 }
    ensures { result ≡ length (file_replies image.now.frame.hash_width image.now.bytes.now file.now) }
{
    let base = empty_key_sum(image);
    let mut at = 0usize;
    let mut total = 0usize;
    while at < file.len() {
        let asked = question_at(file, at);
        total = total + REPLY_HEAD + key_length(image, base, asked.question);
        at = asked.next;
    }
    total
}

// The bytes of the longest reply: mark, letter, number, length and a key of 64 bytes.
const LONGEST_REPLY: usize = 72;

// Whether the replies to all questions of a file that is taken, count of them, fit into room bytes. No reply is longer than LONGEST_REPLY, so their lengths are summed only where room is short.
pub fn replies_fit(image: &AcceptedImage, file: &[u8], count: usize, room: usize) -> bool
    requires { TakenFrom file.now 0 × (count ≡ length (questions_of file.now)) }
    ensures { result ≡ leb (length (file_replies image.now.frame.hash_width image.now.bytes.now file.now)) room }
{
    if LONGEST_REPLY * count <= room {
        return true;
    }
    replies_length(image, file) <= room
}

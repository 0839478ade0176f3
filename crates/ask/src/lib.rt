// The public call ask: an image, a question file and a reply buffer give the answer, and the replies in the buffer.

#![tactic(auto)]

ghost use Rattle.std.specs.Prelude.{◌≡◌};
ghost use Rattle.spec.specs.Check.{verdict};
ghost use Rattle.spec.specs.Ask.{ask};
ghost use Rattle.image.specs.Outcomes.{outcome};

use ask_files::questions::judge_file;
use ask_replies::write_replies;
use check_image::accept;
use image::AcceptedImage;
use image::refusals::Refusal;
use lengths::replies_fit;

pub mod lengths; // lengths.rt: whether all replies fit into the buffer

// Replies to a question file over an accepted image: by question 24, 21, 22, 23; then 25, the replies are longer than the buffer.
fn ask_accepted(
    image: &AcceptedImage,
    questions: &[u8],
    replies: &mut [u8],
) -> Result<usize, Refusal>
    requires { verdict image.now.bytes.now ≡ 0 }
    ensures { outcome result replies.new ≡ ask image.now.bytes.now questions.now replies.old }
{
    let count = judge_file(questions)?;
    if !replies_fit(image, questions, count, replies.len()) {
        return Err(Refusal::ReplyBufferTooShort);
    }
    Ok(write_replies(image, questions, replies))
}

// Replies to a question file over an image: the check's numbers 11 to 16, then those of an accepted image.
pub fn ask(image: &[u8], questions: &[u8], replies: &mut [u8]) -> Result<usize, Refusal>
    ensures { outcome result replies.new ≡ ask image.now questions.now replies.old }
{
    let accepted = accept(image)?;
    ask_accepted(&accepted, questions, replies)
}

// How the text of an input opens: the first line of a listing, or the whole text where no listing follows.
ghost use Rattle.std.specs.Prelude.{◌≤◌, length, IfSome};
ghost use Rattle.image.specs.FrameOf.{FrameOf};
ghost use Rattle.print_text.specs.Texts.{longest_line};
ghost use Rattle.print_pages.specs.Printing.{Opened};

use print_text::lines::{write_head, write_refused, write_too_long};
use walk::walker;
use walk::walker::Walker;

// The bytes of the longest input that is taken for an image.
const LONGEST_INPUT: usize = 65536;

// How a text opens: the bytes written, and the walker at the input's first leaf if the leaves' lines follow them.
#[derive(Clone, Copy)]
pub struct Opening<'a> {
    pub len: usize,
    pub lines: Option<Walker<'a>>,
}

// The opening of the input's text, written into a page. A walker that it gives has the frame of the input.
pub fn open<'a>(input: &'a [u8], page: &mut [u8]) -> Opening<'a>
    requires { longest_line ≤ length page.old }
    ensures opened { Opened input.now page.new result }
    ensures frame { IfSome result.lines (λ w. FrameOf input.now w.image.frame) }
{
    if input.len() > LONGEST_INPUT {
        return Opening {
            len: write_too_long(page, 0),
            lines: None,
        };
    }
    match walker::open(input, 0) {
        Err(refusal) => Opening {
            len: write_refused(page, 0, refusal.number() as usize),
            lines: None,
        },
        Ok(at) => Opening {
            len: write_head(page, 0, at.image.frame.leaves),
            lines: Some(at),
        },
    }
}

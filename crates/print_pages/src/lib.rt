// The text of an input in pages: how it opens, the lines of its leaves, and its output.
#![tactic(auto)]

pub mod opening; // opening.rt: how a text opens
pub mod pages; // pages.rt: the leaves' lines, a page at a time
pub mod input; // input.rt: an input read into a buffer
pub mod output; // output.rt: the input read, and its text written

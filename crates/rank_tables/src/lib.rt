// Ranks and samples: their tables counted in a finished body, compared with it, and read. Used by the builder, by the check of the numbers 14 and 15 and by the navigation.

#![tactic(auto)]

pub mod words; // words.rt: the ones in a word, and what a pass over a body finds
pub mod rank_write; // rank_write.rt: ranks of a finished body
pub mod sample_write; // sample_write.rt: samples of a finished S-LOUDS body
pub mod rank_compare; // rank_compare.rt: a rank table against its body
pub mod sample_compare; // sample_compare.rt: the samples against S-LOUDS
pub mod read; // read.rt: a rank or a select by its table

// The len bytes of a slice from an offset: a finished body in the output.
#[derive(Clone, Copy)]
pub struct Span {
    pub at: usize,
    pub len: usize,
}

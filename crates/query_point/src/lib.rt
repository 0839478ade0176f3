// The questions that one descent answers: point and begins-with.

#![tactic(auto)]

pub mod point; // point.rt: the rule behind a point, and what it says
pub mod stem_suffix; // stem_suffix.rt: the suffix of an open leaf against a stem
pub mod stem; // stem.rt: begins-with

// The rule behind a point's reply, a case for each of order 3, with its number there.
#[derive(Clone, Copy, Debug, PartialEq, Eq)]
pub enum Rule {
    BranchMissing = 1,
    KeyEnded = 2,
    ExactLeaf = 3,
    SuffixEqual = 4,
    SuffixOther = 5,
    NoNodes = 6,
}

//! Small judgements with their derivations, and lines made of them, for the tests of the crates above: the program calls
//! none of this.
#![tactic(auto)]

mod judging;
mod lines;
#[cfg(test)]
mod tests;

pub use judging::{SampleJudges, SampleTerms, judgements, terms};
pub use lines::{entry, line, primitive};

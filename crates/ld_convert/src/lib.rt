//! The plain comparison of two terms: head forms, parts and unfoldings, with the pairs that were found the same.
#![tactic(auto)]

mod at_once;
mod comparison;
mod job;
mod known;
#[cfg(test)]
mod known_tests;
pub mod laws;
#[cfg(test)]
mod part_tests;
mod parts;
#[cfg(test)]
mod sample;
mod sides;
#[cfg(test)]
mod tests;
mod turning;
mod whole;

pub use at_once::{remember, same_at_once};
pub use comparison::compare;
pub use job::{Compared, Job};
pub use known::{Known, Pair};
pub use parts::{Part, gather};
pub use whole::congruence;

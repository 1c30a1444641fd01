//! The records of a derivation, each an instance of its rule over earlier ones.
#![tactic(auto)]

mod deriv;
#[cfg(test)]
mod equality_tests;
pub mod laws;
mod record;
#[cfg(test)]
mod sample;
#[cfg(test)]
mod tests;

pub use deriv::Deriv;
pub use record::{CtxId, EqId, EqStep, Eqs, Judge, JudgeId, Judges, Kept, Step};

//! Head forms: beta steps and unfoldings at the head of a term, each charged to a budget, with a kept
//! equality of the term and its form.
#![tactic(auto)]

mod budget;
mod form;
mod head;
mod join;
pub mod laws;
mod reduce;
#[cfg(test)]
mod sample;
mod step;
mod stop;
#[cfg(test)]
mod tests;
mod top;

pub use budget::Budget;
pub use head::{defined_head, has_beta};
pub use reduce::{beta_head, expose, unfold};
pub use stop::Stop;

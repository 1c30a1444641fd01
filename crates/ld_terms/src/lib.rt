//! Terms of the calculus, kept as numbers in a bank.
//!
//! `specs/` has the calculus itself: trees, substitution, entries, steps, conversion, the eleven
//! rules, and what each record of a derivation must meet.
#![tactic(auto)]

pub mod bank;
mod instantiation;
mod lifting;
mod term_list;
#[cfg(test)]
mod tests;

pub use bank::{Bank, Mark, Node, TermFault, TermId};
pub use term_list::Terms;

//! Derivation files judged, record by record, by nothing but the records themselves.
#![tactic(auto)]

mod check;
mod checker;
mod compare;
mod decode;
mod equal;
mod follow;
mod instance;
mod judge;
mod known;
pub mod laws;
mod make;
mod meets;
mod rules;
mod shape;
#[cfg(test)]
mod shape_tests;
mod spelled;
#[cfg(test)]
mod tests;
mod there;

pub use check::{Checked, check_file};

//! The surface tree that shows a term.
#![tactic(auto)]

mod cut;
mod filling;
pub mod laws;
mod level;
mod names;
mod term;
#[cfg(test)]
mod tests;
mod walk;

pub use cut::show_cut;
pub use term::show;

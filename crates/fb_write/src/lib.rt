//! The canonical text of terms and items.
#![tactic(auto)]

mod append;
mod item;
pub mod laws;
mod term;
#[cfg(test)]
mod tests;

pub use item::write_item;
pub use term::write_term;

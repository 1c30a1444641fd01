//! The environment: entries under names that differ, found by name or by number.
#![tactic(auto)]

mod env;
#[cfg(test)]
mod tests;

pub use env::{Entry, Env, EnvFault};

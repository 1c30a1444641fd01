//! A term as flag items.
#![tactic(auto)]

pub mod laws;

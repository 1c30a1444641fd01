//! A theory (an environment with its derivation), and type inference by the rules of the calculus of constructions with
//! definitions (docs/calculus.md; Nederpelt and Geuvers, *Type Theory and Formal Proof*, chapters 8 to 11).
#![tactic(auto)]

mod argument;
mod exposing;
mod failure;
mod function;
mod inference;
mod instance;
mod keeping;
pub mod laws;
mod leaf;
mod refusal;
#[cfg(test)]
mod tests;
mod theory;
mod typing;
mod variable;

pub use failure::{Failure, InferFault, Path, PathStep, RuleName, Why};
pub use inference::Typed;
pub use ld_convert::Job;
pub use ld_reduce::Stop;
pub use refusal::within;
pub use theory::Theory;
pub use typing::{infer, sort_of};
pub use variable::VariableTyped;

//! What a name of a book stands for: a binder, an open flag, or an entry with the arguments that open flags imply.
#![tactic(auto)]

mod fault;
mod mark;
mod resolve;
mod scope;
#[cfg(test)]
mod tests;

pub use fault::ScopeFault;
pub use resolve::Found;
pub use scope::Scope;

//! The derivation file: its header, the writer of its records, and their reader.
#![tactic(auto)]

mod body;
#[cfg(test)]
mod conversion_tests;
mod decode;
pub mod laws;
mod number;
pub mod reader;
#[cfg(test)]
mod reading_tests;
pub mod rec;
mod record;
mod shape;
mod terms;
#[cfg(test)]
mod tests;
#[cfg(test)]
mod variable_tests;
mod writer;

pub use record::header;
pub use writer::Writer;

//! The top call: from the words of the command line to the derivation file, or from one, and the report.
#![tactic(auto)]

mod build;
mod check;
mod command;
mod fetch;
mod item;
pub mod laws;
mod names;
mod perform;
mod report;
mod status;
mod top;
mod words;

pub use status::{
    BudgetFault, LimitFault, RuleFault, Side, Status, Summary, TextFault, TextWhat, Want, WhyName,
};
pub use top::run;

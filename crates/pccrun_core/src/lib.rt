//! The top call of the program: all that it does over a source and a sink that are handed in.
#![tactic(auto)]

mod audit;
mod command;
mod error;
mod inputs;
mod package;
mod program;
mod script;
mod step;
mod tables;
mod top;
mod uses;
mod weave;

pub use inputs::{answer_laws, input_laws};
pub use program::run_program;
pub use top::{Finished, run};

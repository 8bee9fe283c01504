//! The command line of `hkrep`, and its help.
#![tactic(auto)]

mod argument;
mod arguments;
mod calls;
mod command;
mod flaw;
mod forms;
mod node;
mod numbers;
mod places;
mod serve;
mod texts;
mod words;

pub use arguments::read_call;

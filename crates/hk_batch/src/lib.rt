//! Fragments of long lists of items, built by several workers.
#![tactic(auto)]

mod batch;

pub use batch::{Gate, OpenGate, build};

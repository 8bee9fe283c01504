//! Tests: printed words, items and messages as bytes, what several workers do, sessions, a primary alone and shared by
//! threads, worlds, a running node.
#![tactic(auto)]

#[cfg(test)]
mod tests;

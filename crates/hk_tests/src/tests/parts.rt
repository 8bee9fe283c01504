//! Printed words, and items as bytes.

mod frames;
mod words;

//! Which program it is.

/// The program's version, and the logic that it is proved in.
pub const VERSION: &str = "0.1.0 (rattle logic dac8208d650f15bf)";

/// Whether the program was built from crates that were proved. `make quick` builds one of which it is false.
pub const IS_PROVED: bool = true;

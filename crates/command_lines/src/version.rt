//! Names the version of the programs.

/// Holds what `--version` prints after a program's name.
pub const VERSION: &str = "0.9.0";

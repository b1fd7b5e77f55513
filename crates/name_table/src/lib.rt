//! Looks numbers up by name. A table gives numbers to names, in the order in which they come, and
//! finds the number of a name in logarithmic time.
#![tactic(auto)]

mod table;

pub use table::NameTable;

//! Prints a turn that crosses threads, and turns compared by value, a line a fact. Rows of
//! `tests_rows` try what turns emit.
//!
//! The gate compares each byte of them.
#![tactic(auto)]

mod groups;
mod turns;

use std::alloc::AllocError;
use std::io;

/// Adds a line: the fact's name, the two that are compared, and whether they are the same.
pub(crate) fn add_line(
    text: &mut String,
    name: &str,
    two: &str,
    is_same: bool,
) -> Result<(), AllocError> {
    text.push_str(name)?;
    text.push_str(": ")?;
    text.push_str(two)?;
    text.push_str(if is_same { " same\n" } else { " differ\n" })
}

fn main(rt: HostRuntime) -> io::Result<()> {
    let mut text = String::new(rt.alloc());
    turns::add_all(rt.alloc(), &mut text)?;
    groups::add_all(rt.alloc(), &mut text)?;
    print!(rt; "{}", text.as_str())
}

//! Tests a table of names at work.
use name_table::NameTable;
use std::alloc::{AllocError, Global};
use std::test::Fail;

/// Frees the name if it is there, and gives it a number.
fn number_again(table: &mut NameTable, name: &str) -> Result<(), AllocError> {
    if table.number(name).is_some() {
        table.free(name);
    }
    if table.number(name).is_none() && table.len() < 100 {
        table.push(name)?;
    }
    Ok(())
}

/// Returns a table of a few names, where one was freed and given again.
fn filled(alloc: Global) -> Result<NameTable, AllocError> {
    let mut table = NameTable::new(alloc);
    for name in ["S", "T", "S", "s"] {
        number_again(&mut table, name)?;
    }
    Ok(table)
}

/// Returns whether the names have these numbers.
fn are_numbered(table: &NameTable, names: &[(&str, Option<usize>)]) -> bool {
    for (name, number) in names {
        if table.number(name) != *number {
            return false;
        }
    }
    true
}

fn names_are_numbered(alloc: Global) -> Result<bool, AllocError> {
    let table = filled(alloc)?;
    let names = [
        ("S", Some(2)),
        ("T", Some(1)),
        ("s", Some(3)),
        ("", None),
        ("t", None),
    ];
    Ok(table.len() == 4 && are_numbered(&table, &names))
}

#[test]
fn freed_names_are_given_again(rt: HostRuntime) -> Result<(), Fail> {
    assert!(rt; names_are_numbered(rt.alloc())?);
    Ok(())
}

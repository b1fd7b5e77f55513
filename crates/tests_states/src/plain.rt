//! The definitions of the kernels as plain code.

use values::{Compare, Value};

pub(crate) fn compared(x: Value, how: Compare, y: Value) -> Option<bool> {
    let (x, y) = (x.number()?, y.number()?);
    Some(match how {
        Compare::Equals => x == y,
        Compare::Differs => x != y,
        Compare::Below => x < y,
        Compare::AtMost => x <= y,
        Compare::Above => x > y,
        Compare::AtLeast => x >= y,
    })
}

pub(crate) fn not(a: Option<bool>) -> Option<bool> {
    Some(!a?)
}

pub(crate) fn and(a: Option<bool>, b: Option<bool>) -> Option<bool> {
    match (a, b) {
        (Some(false), _) => Some(false),
        (_, Some(false)) => Some(false),
        (Some(true), Some(true)) => Some(true),
        _ => None,
    }
}

pub(crate) fn or(a: Option<bool>, b: Option<bool>) -> Option<bool> {
    not(and(not(a), not(b)))
}

//! Says where a refused call is at fault: at which row of an append, byte of a name, or column.
//!
//! A fault says what is wrong, and these functions say where. They make the fault's own test again,
//! from the first row, byte or column on. They take no memory, and scan what was asked once.
ghost use Rattle.std.specs.Prelude.{◌≡◌, ◌==◌, int_le, length, not, position, sum, take};
ghost use Rattle.std.specs.List.{list_any};
ghost use Rattle.std.specs.Str.{bytes_eq};
ghost use Rattle.cql_reader.specs.Lexis as lexis;
ghost use Rattle.reference.specs.CallViews.{texts_of};
ghost use Rattle.reference.specs.Commands.{is_instant};
ghost use Rattle.reference.specs.WhereOf as where_of;

use crate::fault::Fault;
use crate::limits::{MAX_INSTANT, MAX_STREAM_COLUMNS};
use crate::new_rows::{NewRows, all_stream_values};
use crate::refusals::is_among;
use cql_reader::{MAX_NAME, is_name};

/// Returns the first row at fault, from 0, of an append that was refused for this fault. `width`
/// counts the stream's columns, and `closed` is its last closed instant, as a status shows it.
///
/// `BadWidth`, `ValueRange`, `InstantRange` and `Late` are of a row. Every other fault is of none.
pub fn row_at_fault(fault: Fault, rows: &NewRows, width: usize, closed: i64) -> Option<usize>
    ensures { result ≡ where_of.row_at_fault fault width closed rows.now }
{
    match fault {
        Fault::BadWidth => first_other_width(rows, width),
        Fault::ValueRange => first_other_value(rows),
        Fault::InstantRange => first_other_instant(rows),
        Fault::Late => first_late(rows, closed),
        _ => None,
    }
}

/// Returns how many bytes come before the first one at fault, in a name that was refused for this
/// fault. No name has that byte at its place: it is no letter, digit or underscore, or a digit at
/// the start, or the 33rd byte.
///
/// Only `BadName` is of a byte. An empty name and a reserved word have no byte at fault.
pub fn byte_at_fault(fault: Fault, name: &str) -> Option<usize>
    ensures { result ≡ where_of.byte_at_fault fault name.now }
{
    match fault {
        Fault::BadName => first_break(name.as_bytes()),
        _ => None,
    }
}

/// Returns the first column at fault, from 0, of a declaration that was refused for this fault. It
/// is the ninth, or its name is no name, or a column before it has the same name.
///
/// Only `BadColumns` is of a column. If there are no columns, none is at fault.
pub fn column_at_fault(fault: Fault, columns: &[String]) -> Option<usize>
    ensures { result ≡ where_of.column_at_fault fault (texts_of columns.now) }
{
    match fault {
        Fault::BadColumns => first_bad_column(columns),
        _ => None,
    }
}

fn first_other_width(rows: &NewRows, width: usize) -> Option<usize>
    ensures { result ≡ position (where_of.has_other_width width) rows.now }
{
    first_other(rows.widths(), width)
}

fn first_other(widths: &[usize], width: usize) -> Option<usize>
    ensures { result ≡ position (λ w. not (w == width)) widths.now }
{
    widths.iter().position(|w| *w != width)
}

fn first_other_instant(rows: &NewRows) -> Option<usize>
    ensures { result ≡ position where_of.has_other_instant rows.now }
{
    first_no_instant(rows.instants())
}

fn first_no_instant(instants: &[i64]) -> Option<usize>
    ensures { result ≡ position (λ at. not (is_instant at)) instants.now }
{
    instants.iter().position(|at| *at < 0 || MAX_INSTANT < *at)
}

fn first_late(rows: &NewRows, closed: i64) -> Option<usize>
    ensures { result ≡ position (where_of.is_late closed) rows.now }
{
    first_up_to(rows.instants(), closed)
}

fn first_up_to(instants: &[i64], closed: i64) -> Option<usize>
    ensures { result ≡ position (λ at. int_le at closed) instants.now }
{
    instants.iter().position(|at| *at <= closed)
}

fn first_other_value(rows: &NewRows) -> Option<usize>
    ensures { result ≡ position where_of.has_other_value rows.now }
{
    first_with_other_value(rows.widths(), rows.values())
}

/// Returns the first row that has a value outside the range of streams. The rows' values come one
/// after the other; `widths` counts those of each.
fn first_with_other_value(widths: &[usize], values: &[Option<i64>]) -> Option<usize>
    requires { sum widths.now ≡ length values.now }
    ensures { result ≡ where_of.first_other_in 0 widths.now values.now }
{
    let mut rest = values;
    for (row, width) in widths.iter().enumerate() {
        let (own, after) = rest.split_at(*width);
        if !all_stream_values(own) {
            return Some(row);
        }
        rest = after;
    }
    None
}

/// Returns whether a byte is a letter or an underscore.
fn is_letter(byte: u8) -> bool
    ensures { result ≡ lexis.is_letter byte }
{
    byte.is_ascii_alphabetic() || byte == b'_'
}

/// Returns whether no name has the byte at this place.
fn breaks_name(place: usize, byte: u8) -> bool
    ensures { result ≡ where_of.breaks_name (place, byte) }
{
    if MAX_NAME <= place {
        return true;
    }
    !is_letter(byte) && (place == 0 || !byte.is_ascii_digit())
}

#[tactic(auto, unfolding(crate::specs::WhereOf::first_break))]
fn first_break(name: &[u8]) -> Option<usize>
    ensures { result ≡ where_of.first_break name.now }
{
    name.iter()
        .enumerate()
        .position(|(place, byte)| breaks_name(place, *byte))
}

/// Returns whether no stream has the column at this place.
fn breaks_columns(columns: &[String], place: usize, name: &str) -> bool
    ensures { result ≡ where_of.breaks_columns (texts_of columns.now) (place, name.now) }
{
    MAX_STREAM_COLUMNS <= place || !is_name(name) || is_among_first(columns, place, name)
}

/// Returns whether one of the first columns has this name.
#[tactic(auto, using(crate::proofs::WhereLemmas::first_texts))]
fn is_among_first(columns: &[String], count: usize, name: &str) -> bool
    ensures { result ≡ list_any (bytes_eq name.now) (take count (texts_of columns.now)) }
{
    is_among(&columns[..count.min(columns.len())], name)
}

#[tactic(auto, using(crate::proofs::WhereLemmas::columns))]
fn first_bad_column(columns: &[String]) -> Option<usize>
    ensures { result ≡ where_of.first_bad_column (texts_of columns.now) }
{
    for (place, name) in columns.iter().enumerate() {
        if breaks_columns(columns, place, name.as_str()) {
            return Some(place);
        }
    }
    None
}

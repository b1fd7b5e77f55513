//! Shows each call of the plain engine, which evaluates CQL's definition.

use crate::fixture::{NOW, columns, declare, fill, rows};
use crate::stop::Stop;
use leases::Engine;
use reference::{Answering, Fault, Plain, byte_at_fault, column_at_fault, row_at_fault};
use std::alloc::{AllocError, Global};
use values::Row;

/// Shows what a client of the plain engine calls.
pub(crate) fn show_all<R: Print>(rt: &R, alloc: Global) -> Result<(), Stop> {
    the_plain_engine_answers_a_query(rt, alloc)?;
    every_engine_answers_the_same(rt, alloc)?;
    the_plain_engine_forgets_nothing(rt, alloc)?;
    the_plain_engine_shows_names_and_slopes(rt, alloc)?;
    the_plain_engine_drops_a_query(rt, alloc)?;
    a_refusal_has_a_place(rt, alloc)
}

/// Makes a plain engine with the query `NOW`, and the rows 2 and 5 at the instants 0 and 1.
fn filled(alloc: Global) -> Result<Plain, Fault> {
    let mut plain = Plain::new(alloc)?;
    declare(alloc, &mut plain, NOW)?;
    fill(alloc, &mut plain)?;
    Ok(plain)
}

/// Shows the calls from a declaration to an answer.
///
/// The row 7 comes at the instants 0 and 1. `[Range 1]` is an instant and the one before it. So
/// there is one 7 at 0, there are two at 1, and one is left at 2.
fn the_plain_engine_answers_a_query<R: Print>(rt: &R, alloc: Global) -> Result<(), Stop> {
    let mut plain = Plain::new(alloc)?;
    let columns = columns(alloc)?;
    let stream = plain.stream("S", columns.as_slice(), 0)?;
    let text = "Select Rstream(a, Count(*)) From S [Range 1] Group By a";
    let query = plain.query("counts", text, None)?;
    plain.append(stream, &rows(alloc, &[(0, 7), (1, 7)])?)?;
    plain.heartbeat(stream, 2)?;
    plain.drain(256)?;
    let answers = plain.take(query, 100)?;
    println!(rt; "the_plain_engine_answers_a_query: {answers:?}")?;
    Ok(())
}

/// Asks any engine for the rows of each instant.
fn answers_of<E: Answering>(alloc: Global, engine: &mut E) -> Result<Vec<(i64, Row)>, Fault> {
    declare(alloc, engine, NOW)?;
    fill(alloc, engine)?;
    engine.drain(256)?;
    engine.take(0, 100)
}

/// Shows that a function over `Answering` takes either engine.
///
/// Both answer 2 at the instant 0, and 5 at the instant 1.
fn every_engine_answers_the_same<R: Print>(rt: &R, alloc: Global) -> Result<(), Stop> {
    let by_definition = answers_of(alloc, &mut Plain::new(alloc)?)?;
    let by_turns = answers_of(alloc, &mut Engine::new(alloc))?;
    println!(rt; "every_engine_answers_the_same: {by_definition:?}, {by_turns:?}")?;
    Ok(())
}

/// Shows that forgetting changes no answer.
///
/// The plain engine keeps every row, so `forget` and `tidy` do nothing.
fn the_plain_engine_forgets_nothing<R: Print>(rt: &R, alloc: Global) -> Result<(), Stop> {
    let mut plain = filled(alloc)?;
    plain.forget()?;
    plain.tidy();
    plain.drain(256)?;
    let answers = plain.take(0, 100)?;
    println!(rt; "the_plain_engine_forgets_nothing: {answers:?}")?;
    Ok(())
}

/// Shows the numbers of names, and the slopes of a query without a chart.
///
/// By default the Window costs 2 and leaves all, the Project costs 1 and leaves 400,000, and the
/// ToStream costs 1 and leaves 0. The steepest descent from the start leads to the end: 1,000,000
/// in 4.
fn the_plain_engine_shows_names_and_slopes<R: Print>(rt: &R, alloc: Global) -> Result<(), Stop> {
    let plain = filled(alloc)?;
    let (s, q) = (plain.stream_named("S"), plain.query_named("q"));
    println!(rt; "the_plain_engine_shows_names_and_slopes: S {s:?}, q {q:?}")?;
    for (kind, slope) in plain.slopes(0)? {
        println!(rt; "the_plain_engine_shows_names_and_slopes: {kind} {slope}")?;
    }
    Ok(())
}

/// Shows that a dropped query is unknown, and that its name leads nowhere.
fn the_plain_engine_drops_a_query<R: Print>(rt: &R, alloc: Global) -> Result<(), Stop> {
    let mut plain = filled(alloc)?;
    plain.drop_query(0)?;
    let answers = plain.take(0, 100);
    let q = plain.query_named("q");
    println!(rt; "the_plain_engine_drops_a_query: {answers:?}, q {q:?}")?;
    Ok(())
}

/// Lists two columns of the same name.
fn named_twice(alloc: Global) -> Result<Vec<String>, AllocError> {
    let mut names = columns(alloc)?;
    names.push(String::from_str(alloc, "a")?)?;
    Ok(names)
}

/// Shows which row of a refused append is at fault, and which byte of a name and which column.
///
/// S is closed up to 1, so the third row is late: it has the number 2. The name
/// has a space in its byte 4, and the second column the name of the first.
fn a_refusal_has_a_place<R: Print>(rt: &R, alloc: Global) -> Result<(), Stop> {
    let mut plain = filled(alloc)?;
    let late = rows(alloc, &[(2, 3), (3, 3), (1, 3)])?;
    if let Err(fault) = plain.append(0, &late) {
        let row = row_at_fault(fault, &late, 1, 1);
        println!(rt; "a_refusal_has_a_place: {fault}, row {row:?}")?;
    }
    let twice = named_twice(alloc)?;
    if let Err(fault) = plain.stream("room 2", &twice, 0) {
        let byte = byte_at_fault(fault, "room 2");
        println!(rt; "a_refusal_has_a_place: {fault}, byte {byte:?}")?;
    }
    if let Err(fault) = plain.stream("rooms", &twice, 0) {
        let column = column_at_fault(fault, &twice);
        println!(rt; "a_refusal_has_a_place: {fault}, column {column:?}")?;
    }
    Ok(())
}

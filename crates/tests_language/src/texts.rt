//! Tests answers of a text.

use crate::answers::{are, row};
use cql_reader::{Name, Query, every_query_is_well_formed, every_text_has_one_answer, read};
use names::{Catalog, ResolveError};
use plan::{fits_a_row, plans_are_right};
use reference::{
    answers, answers_only_grow, equal_window_bags_have_equal_answers,
    later_elements_change_no_closed_answer,
    order_of_arrival_matters_to_last_rows_within_an_instant_alone,
};
use std::alloc::{AllocError, Global};
use std::test::Fail;
use values::Row;

/// Returns the stream S(a).
fn catalog(alloc: Global) -> Result<Catalog, AllocError> {
    let columns = vec![in alloc; Name::new(b"a")]?;
    let mut catalog = Catalog::new(alloc);
    catalog.declare(Name::new(b"S"), columns)?;
    Ok(catalog)
}

/// Returns the rows 7, 5, 6 and 8 of S, each with its instant.
fn inputs(alloc: Global) -> Result<Vec<Vec<(u64, Row)>>, AllocError> {
    let rows = vec![in alloc; (3, row(7)), (1, row(5)), (3, row(6)), (4, row(8))]?;
    let mut inputs = Vec::new(alloc);
    inputs.push(rows)?;
    Ok(inputs)
}

/// Returns the answers above -1 up to 3 of a query of one stream.
fn answered(
    alloc: Global,
    query: &Query,
    catalog: &Catalog,
    inputs: &[Vec<(u64, Row)>],
) -> Result<Option<Vec<(u64, Row)>>, AllocError> {
    if !fits_a_row(query, catalog) || query.sources.len() != inputs.len() {
        return Ok(None);
    }
    match answers(alloc, query, catalog, inputs, -1, 3) {
        Ok(answers) => Ok(Some(answers)),
        Err(ResolveError::OutOfMemory) => Err(AllocError),
        Err(ResolveError::Fault(_)) => Ok(None),
    }
}

/// Returns whether these are the answers of a query over S.
fn answers_are(alloc: Global, query: &Query, wanted: &[(u64, i64)]) -> Result<bool, AllocError> {
    let catalog = catalog(alloc)?;
    let inputs = inputs(alloc)?;
    match answered(alloc, query, &catalog, &inputs)? {
        Some(answers) => Ok(are(&answers, wanted)),
        None => Ok(false),
    }
}

fn text_is_answered(alloc: Global, text: &str, wanted: &[(u64, i64)]) -> Result<bool, AllocError> {
    match read(alloc, text.as_bytes()) {
        Ok(query) => answers_are(alloc, &query, wanted),
        Err(_) => Ok(false),
    }
}

#[test]
fn answers_are_those_of_the_closed_instants(rt: HostRuntime) -> Result<(), Fail> {
    every_text_has_one_answer();
    every_query_is_well_formed();
    plans_are_right();
    answers_only_grow();
    equal_window_bags_have_equal_answers();
    later_elements_change_no_closed_answer();
    order_of_arrival_matters_to_last_rows_within_an_instant_alone();
    let text = "Select Istream(*) From S [Now]";
    let wanted = [(1, 5), (3, 6), (3, 7)];
    assert!(rt; text_is_answered(rt.alloc(), text, &wanted)?);
    Ok(())
}

//! Reads the request that a JSON value is.
ghost use Rattle.std.specs.Prelude.{◌≡◌, IfOk, Some, None, cond, codes, option_map};
ghost use Rattle.std.specs.Prelude.{map};
ghost use Rattle.serde_json.specs.View.{view, items_view};
ghost use Rattle.serde_json.specs.Find.{get, as_str, as_array};
ghost use Rattle.reference.specs.CallViews.{texts_of};
ghost use Rattle.plan.specs.Chart.{given_by};
ghost use Rattle.wire.specs.Calls.{call_of};
ghost use Rattle.wire.specs.Asked.{text_at, integer_at, list_at, each, value_of};
ghost use Rattle.wire.specs.Asked.{row_from, row_in, pair_from, pair_in, chart_from as asked_chart};
ghost use Rattle.wire.specs.Asked.{declare_in, register_in, append_in, heartbeat_in, take_in};
ghost use Rattle.wire.specs.Asked.{peek_in, drop_query_in, plan_in, asked_by, asked};

use crate::request::Request;
use reference::{Chart, Look, NewRows};
use serde_json::Value;
use std::alloc::{AllocError, Global};

fn text_at<'v>(value: &'v Value, key: &str) -> Option<&'v str>
    ensures { option_map (λ s. s.now) result ≡ text_at key.now (view value.now) }
{
    match value.get(key) {
        Some(found) => found.as_str(),
        None => None,
    }
}

fn integer_at(value: &Value, key: &str) -> Option<i64>
    ensures { result ≡ integer_at key.now (view value.now) }
{
    match value.get(key) {
        Some(found) => found.as_i64(),
        None => None,
    }
}

fn list_at<'v>(value: &'v Value, key: &str) -> Option<&'v Vec<Value>>
    ensures { option_map (λ v. items_view v.now.items) result ≡ list_at key.now (view value.now) }
{
    match value.get(key) {
        Some(found) => found.as_array(),
        None => None,
    }
}

fn texts_from(alloc: Global, items: &[Value]) -> Result<Option<Vec<String>>, AllocError>
    ensures { IfOk result
        (λ o. option_map (λ v. texts_of v.items) o ≡ each as_str (items_view items.now)) }
{
    let mut texts = Vec::new(alloc);
    for item in items {
        let Some(text) = item.as_str() else {
            return Ok(None);
        };
        texts.push(String::from_str(alloc, text)?)?;
    }
    Ok(Some(texts))
}

fn value_of(value: &Value) -> Option<Option<i64>>
    ensures { result ≡ value_of (view value.now) }
{
    match value {
        Value::Null => Some(None),
        Value::Number(number) => match number.as_i64() {
            Some(n) => Some(Some(n)),
            None => None,
        },
        _ => None,
    }
}

/// Reads values into the list, in place of those in it. Returns whether all could be read.
fn values_of(items: &[Value], values: &mut Vec<Option<i64>>) -> Result<bool, AllocError>
    ensures { IfOk result (λ all. cond all (Some values.new.items) None
        ≡ each value_of (items_view items.now)) }
{
    values.clear();
    for item in items {
        let Some(value) = value_of(item) else {
            return Ok(false);
        };
        values.push(value)?;
    }
    Ok(true)
}

/// Reads a row: its values into the list, and its instant.
fn row_from(items: &[Value], values: &mut Vec<Option<i64>>) -> Result<Option<i64>, AllocError>
    ensures { IfOk result (λ o. option_map (λ at. (at, values.new.items)) o
        ≡ row_from (items_view items.now)) }
{
    let Some((first, rest)) = items.split_first() else {
        return Ok(None);
    };
    let Some(at) = first.as_i64() else {
        return Ok(None);
    };
    if !values_of(rest, values)? {
        return Ok(None);
    }
    Ok(Some(at))
}

fn row_in(value: &Value, values: &mut Vec<Option<i64>>) -> Result<Option<i64>, AllocError>
    ensures { IfOk result (λ o. option_map (λ at. (at, values.new.items)) o
        ≡ row_in (view value.now)) }
{
    match value.as_array() {
        Some(items) => row_from(items, values),
        None => Ok(None),
    }
}

// One list serves for the values of all rows in turn.
fn rows_of(alloc: Global, items: &[Value]) -> Result<Option<NewRows>, AllocError>
    ensures { IfOk result (λ o. o ≡ each row_in (items_view items.now)) }
{
    let mut rows = NewRows::with_capacity(alloc, items.len())?;
    let mut values = Vec::new(alloc);
    for item in items {
        let Some(at) = row_in(item, &mut values)? else {
            return Ok(None);
        };
        rows.push_row(at, &values)?;
    }
    Ok(Some(rows))
}

fn pair_from(items: &[Value]) -> Option<(i64, i64)>
    ensures { result ≡ pair_from (items_view items.now) }
{
    let [cost, size] = items else {
        return None;
    };
    match (cost.as_i64(), size.as_i64()) {
        (Some(cost), Some(size)) => Some((cost, size)),
        _ => None,
    }
}

/// Reads a cost and a size.
fn pair_in(value: &Value) -> Option<(i64, i64)>
    ensures { result ≡ pair_in (view value.now) }
{
    match value.as_array() {
        Some(items) => pair_from(items),
        None => None,
    }
}

fn chart_from(alloc: Global, items: &[Value]) -> Result<Option<Chart>, AllocError>
    ensures { IfOk result (λ o. option_map (λ c. c.operators.items) o
        ≡ each pair_in (items_view items.now)) }
{
    let mut operators = Vec::new(alloc);
    for item in items {
        let Some(pair) = pair_in(item) else {
            return Ok(None);
        };
        operators.push(pair)?;
    }
    Ok(Some(Chart { operators }))
}

/// Reads the chart, which may be missing.
fn chart_at(alloc: Global, value: &Value) -> Result<Option<Option<Chart>>, AllocError>
    ensures { IfOk result (λ o. option_map given_by o
        ≡ asked_chart (get (codes "chart") (view value.now))) }
{
    let Some(found) = value.get("chart") else {
        return Ok(Some(None));
    };
    let Some(items) = found.as_array() else {
        return Ok(None);
    };
    let Some(chart) = chart_from(alloc, items)? else {
        return Ok(None);
    };
    Ok(Some(Some(chart)))
}

#[tactic(auto, unfolding(crate::specs::Asked::declare_in))]
fn declare_in(alloc: Global, value: &Value) -> Result<Option<Request>, AllocError>
    ensures { IfOk result (λ o. option_map call_of o ≡ declare_in (view value.now)) }
{
    let Some(name) = text_at(value, "name") else {
        return Ok(None);
    };
    let Some(columns) = list_at(value, "columns") else {
        return Ok(None);
    };
    let Some(columns) = texts_from(alloc, columns)? else {
        return Ok(None);
    };
    let Some(from) = integer_at(value, "from") else {
        return Ok(None);
    };
    let name = String::from_str(alloc, name)?;
    Ok(Some(Request::Stream {
        name,
        columns,
        from,
    }))
}

#[tactic(auto, unfolding(crate::specs::Asked::register_in))]
fn register_in(alloc: Global, value: &Value) -> Result<Option<Request>, AllocError>
    ensures { IfOk result (λ o. option_map call_of o ≡ register_in (view value.now)) }
{
    let Some(name) = text_at(value, "name") else {
        return Ok(None);
    };
    let Some(text) = text_at(value, "text") else {
        return Ok(None);
    };
    let Some(chart) = chart_at(alloc, value)? else {
        return Ok(None);
    };
    let name = String::from_str(alloc, name)?;
    let text = String::from_str(alloc, text)?;
    Ok(Some(Request::Query { name, text, chart }))
}

#[tactic(auto, unfolding(crate::specs::Asked::append_in))]
fn append_in(alloc: Global, value: &Value) -> Result<Option<Request>, AllocError>
    ensures { IfOk result (λ o. option_map call_of o ≡ append_in (view value.now)) }
{
    let Some(stream) = text_at(value, "stream") else {
        return Ok(None);
    };
    let Some(rows) = list_at(value, "rows") else {
        return Ok(None);
    };
    let Some(rows) = rows_of(alloc, rows)? else {
        return Ok(None);
    };
    let stream = String::from_str(alloc, stream)?;
    Ok(Some(Request::Append { stream, rows }))
}

#[tactic(auto, unfolding(crate::specs::Asked::heartbeat_in))]
fn heartbeat_in(alloc: Global, value: &Value) -> Result<Option<Request>, AllocError>
    ensures { IfOk result (λ o. option_map call_of o ≡ heartbeat_in (view value.now)) }
{
    let Some(stream) = text_at(value, "stream") else {
        return Ok(None);
    };
    let Some(at) = integer_at(value, "at") else {
        return Ok(None);
    };
    let stream = String::from_str(alloc, stream)?;
    Ok(Some(Request::Heartbeat { stream, at }))
}

#[tactic(auto, unfolding(crate::specs::Asked::take_in))]
fn take_in(alloc: Global, value: &Value) -> Result<Option<Request>, AllocError>
    ensures { IfOk result (λ o. option_map call_of o ≡ take_in (view value.now)) }
{
    let Some(query) = text_at(value, "query") else {
        return Ok(None);
    };
    let Some(limit) = integer_at(value, "limit") else {
        return Ok(None);
    };
    let query = String::from_str(alloc, query)?;
    Ok(Some(Request::Take { query, limit }))
}

#[tactic(auto, unfolding(crate::specs::Asked::peek_in))]
fn peek_in(alloc: Global, value: &Value) -> Result<Option<Request>, AllocError>
    ensures { IfOk result (λ o. option_map call_of o ≡ peek_in (view value.now)) }
{
    let Some(query) = text_at(value, "query") else {
        return Ok(None);
    };
    let Some(limit) = integer_at(value, "limit") else {
        return Ok(None);
    };
    let query = String::from_str(alloc, query)?;
    Ok(Some(Request::Look(Look::Peek { query, limit })))
}

#[tactic(auto, unfolding(crate::specs::Asked::drop_query_in))]
fn drop_query_in(alloc: Global, value: &Value) -> Result<Option<Request>, AllocError>
    ensures { IfOk result (λ o. option_map call_of o ≡ drop_query_in (view value.now)) }
{
    let Some(query) = text_at(value, "query") else {
        return Ok(None);
    };
    let query = String::from_str(alloc, query)?;
    Ok(Some(Request::Drop { query }))
}

#[tactic(auto, unfolding(crate::specs::Asked::plan_in))]
fn plan_in(alloc: Global, value: &Value) -> Result<Option<Request>, AllocError>
    ensures { IfOk result (λ o. option_map call_of o ≡ plan_in (view value.now)) }
{
    let Some(query) = text_at(value, "query") else {
        return Ok(None);
    };
    let query = String::from_str(alloc, query)?;
    Ok(Some(Request::Look(Look::Plan { query })))
}

#[tactic(auto, unfolding(crate::specs::Asked::asked_by))]
fn asked_by(alloc: Global, op: &str, value: &Value) -> Result<Option<Request>, AllocError>
    ensures { IfOk result (λ o. option_map call_of o ≡ asked_by op.now (view value.now)) }
{
    if op == "stream" {
        return declare_in(alloc, value);
    }
    if op == "query" {
        return register_in(alloc, value);
    }
    if op == "append" {
        return append_in(alloc, value);
    }
    if op == "heartbeat" {
        return heartbeat_in(alloc, value);
    }
    if op == "drain" {
        return Ok(Some(Request::Drain));
    }
    if op == "take" {
        return take_in(alloc, value);
    }
    if op == "drop" {
        return drop_query_in(alloc, value);
    }
    if op == "forget" {
        return Ok(Some(Request::Forget));
    }
    if op == "plan" {
        return plan_in(alloc, value);
    }
    if op == "peek" {
        return peek_in(alloc, value);
    }
    if op == "status" {
        return Ok(Some(Request::Look(Look::Status)));
    }
    Ok(None)
}

/// Returns the request that a value is, or none if it is no request.
///
/// # Errors
/// `AllocError` when out of memory.
#[tactic(auto, unfolding(crate::specs::Asked::asked))]
pub fn request_of(alloc: Global, value: &Value) -> Result<Option<Request>, AllocError>
    ensures { IfOk result (λ o. option_map call_of o ≡ asked (view value.now)) }
{
    match text_at(value, "op") {
        Some(op) => asked_by(alloc, op, value),
        None => Ok(None),
    }
}

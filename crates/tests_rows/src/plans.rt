//! Shows what the names of queries mean, and their plans, over the streams S(a), A(k) and B(k, v).
ghost use Rattle.std.specs.Prelude.{◌≤◌, IfOk, length};
ghost use Rattle.std.specs.List.{AllByRecursion};

use crate::texts::add_name;
use cql_reader::{Name, read};
use names::{Catalog, Named, ResolveError, SourceKey, resolve};
use plan::{Key, Node, Plan};
use reference::{Fault, are_columns, find_plan, names_of};
use std::alloc::{AllocError, Global};

/// Declares the streams S(a), A(k) and B(k, v).
fn catalog(alloc: Global) -> Result<Catalog, AllocError>
    ensures { IfOk result (λ c. AllByRecursion (λ s. length s.columns ≤ 8) c) }
{
    let mut catalog = Catalog::new(alloc);
    let first = Vec::from_slice(alloc, &[Name::new(b"a")])?;
    catalog.declare(Name::new(b"S"), first)?;
    let second = Vec::from_slice(alloc, &[Name::new(b"k")])?;
    catalog.declare(Name::new(b"A"), second)?;
    let third = Vec::from_slice(alloc, &[Name::new(b"k"), Name::new(b"v")])?;
    catalog.declare(Name::new(b"B"), third)?;
    Ok(catalog)
}

fn add_numbers(text: &mut String, numbers: &[usize]) -> Result<(), AllocError> {
    for number in numbers {
        write!(text, " {number}")?;
    }
    Ok(())
}

/// Adds the keys that join a source with those before it.
fn add_keys(text: &mut String, keys: &[SourceKey]) -> Result<(), AllocError> {
    for key in keys {
        let (source, column) = (key.earlier.source, key.earlier.column);
        write!(text, " {source}.{column} = {}", key.column)?;
    }
    Ok(())
}

/// Shows the streams, their widths, the keys, and how many conditions each source has of its own.
/// Shows also how many remain.
fn named(alloc: Global, named: &Named) -> Result<String, AllocError> {
    let mut text = String::from_str(alloc, "streams")?;
    add_numbers(&mut text, &named.streams)?;
    text.push_str("; widths")?;
    add_numbers(&mut text, &named.widths)?;
    text.push_str("; keys")?;
    for keys in &named.keys {
        add_keys(&mut text, keys)?;
    }
    text.push_str("; own")?;
    for own in &named.own {
        write!(text, " {}", own.len())?;
    }
    write!(text, "; {} remain", named.rest.len())?;
    Ok(text)
}

/// Shows what the names of a text mean.
pub(crate) fn resolved(alloc: Global, text: &str) -> Result<String, AllocError> {
    let query = match read(alloc, text.as_bytes()) {
        Ok(query) => query,
        Err(fault) => return format!(in alloc; "{fault}"),
    };
    let catalog = catalog(alloc)?;
    match resolve(alloc, &query, &catalog) {
        Ok(found) => named(alloc, &found),
        Err(ResolveError::OutOfMemory) => Err(AllocError),
        Err(ResolveError::Fault(fault)) => format!(in alloc; "{fault}"),
    }
}

/// Adds the numbers of the operators whose rows an operator takes.
fn add_inputs(text: &mut String, nodes: &[Node], node: &Node) -> Result<(), AllocError> {
    for number in 0..nodes.len() {
        if node.takes(number) {
            write!(text, " {number}")?;
        }
    }
    Ok(())
}

fn add_joined(text: &mut String, keys: &[Key]) -> Result<(), AllocError> {
    for key in keys {
        write!(text, " {} = {}", key.left, key.right)?;
    }
    Ok(())
}

/// Adds what an operator carries.
fn add_carried(text: &mut String, node: &Node) -> Result<(), AllocError> {
    match node {
        Node::Window(source) => write!(text, " source {source}"),
        Node::Join(_, _, keys) => add_joined(text, keys),
        Node::Project(_, places) => add_numbers(text, places),
        Node::ToStream(_, operator) => write!(text, " {operator:?}"),
        _ => Ok(()),
    }
}

/// Shows the operators: what each does, whose rows it takes, and its cost and size.
fn shown(alloc: Global, plan: &Plan) -> Result<String, AllocError> {
    let mut text = format!(in alloc; "{} operators", plan.nodes.len())?;
    for (node, measure) in plan.nodes.iter().zip(plan.measures.iter()) {
        write!(text, "; {}", node.kind())?;
        add_inputs(&mut text, &plan.nodes, node)?;
        text.push_str(":")?;
        add_carried(&mut text, node)?;
        write!(text, " at {}:{}", measure.cost, measure.size)?;
    }
    Ok(text)
}

/// Shows the plan of a text.
pub(crate) fn planned(alloc: Global, text: &str) -> Result<String, Fault> {
    let catalog = catalog(alloc)?;
    let plan = find_plan(alloc, &catalog, text, None)?;
    Ok(shown(alloc, &plan)?)
}

/// Shows the number of the stream with this name, and how many columns it has.
pub(crate) fn found_stream(alloc: Global, name: &str) -> Result<String, AllocError> {
    let catalog = catalog(alloc)?;
    let width = catalog.columns_of(name.as_bytes()).len();
    match catalog.number_of(name.as_bytes()) {
        Some(number) => format!(in alloc; "number {number}, {width} columns"),
        None => format!(in alloc; "none, {width} columns"),
    }
}

fn listed(alloc: Global, names: &[Name]) -> Result<String, AllocError> {
    let mut text = String::new(alloc);
    let mut between = "";
    for name in names {
        text.push_str(between)?;
        add_name(&mut text, name)?;
        between = " ";
    }
    Ok(text)
}

/// Shows the names that words in place of columns give, or that they are no columns.
pub(crate) fn named_columns(alloc: Global, rest: &str) -> Result<String, AllocError> {
    let mut columns = Vec::new(alloc);
    for word in rest.split_whitespace() {
        columns.push(String::from_str(alloc, word)?)?;
    }
    if are_columns(&columns) {
        let names = names_of(alloc, &columns)?;
        listed(alloc, &names)
    } else {
        String::from_str(alloc, "no columns")
    }
}

//! The operators of a plan.
ghost use Rattle.std.specs.Prelude.{◌≡◌, ◌≤◌, IfOk, OnOk, All, get_or, []};
ghost use Rattle.std.specs.Arc.{arc_value};
ghost use Rattle.physical_plans.specs.Beginnings.{AreMade, HaveNarrowRows, InboxStarts, IsMade};
ghost use Rattle.physical_plans.specs.Beginnings.{IsMakeable, ReadsSource, kind_made};
ghost use Rattle.physical_plans.specs.Beginnings.{width_made, widths_from};
ghost use Rattle.physical_plans.specs.Nothing.{nothing_waits};
ghost use Rattle.physical_plans.specs.Beginnings.{widths_of};

use crate::holdings::state_made;
use crate::kinds::{kind_made, width_at};
use op_queue::{Cursor, Queue};
use operators::{Inbox, Operator};
use plan::{Node, Plan};
use std::alloc::{AllocError, Global};
use std::sync::Arc;
use turn::Kind;
use values::MAX_COLUMNS;

/// Makes the operators of a plan at their start, by their numbers. `places` holds the length of
/// each source's stream when the query was registered. `start` is the query's first instant, one
/// above its base.
///
/// # Errors
/// `AllocError` when out of memory; nothing has changed.
pub fn operators_of(
    alloc: Global,
    plan: &Plan,
    places: &[u64],
    start: u64,
) -> Result<Vec<Operator>, AllocError>
    requires narrow { HaveNarrowRows plan.now.widths.items [] plan.now.nodes.items }
    requires makeable { All
        (IsMakeable plan.now.meaning.windows.items
        (widths_of plan.now.widths.items plan.now.nodes.items)) plan.now.nodes.items }
    ensures { IfOk result (λ operators.
        AreMade plan.now.meaning.windows.items plan.now.widths.items
        (widths_of plan.now.widths.items plan.now.nodes.items)
        places.now start plan.now.nodes.items operators.items) }
{
    let mut widths = Vec::new(alloc);
    add_widths(&mut widths, &plan.widths, &plan.nodes)?;
    all_made(alloc, plan, &widths, places, start)
}

fn all_made(
    alloc: Global,
    plan: &Plan,
    widths: &[usize],
    places: &[u64],
    start: u64,
) -> Result<Vec<Operator>, AllocError>
    requires { All (IsMakeable plan.now.meaning.windows.items widths.now) plan.now.nodes.items }
    ensures { IfOk result (λ operators.
        AreMade plan.now.meaning.windows.items plan.now.widths.items widths.now places.now start
        plan.now.nodes.items operators.items) }
{
    let mut operators = Vec::with_capacity(alloc, plan.nodes.len())?;
    for number in 0..plan.nodes.len() {
        let node = &plan.nodes[number];
        operators.push(made(alloc, plan, widths, places, start, node)?)?;
    }
    Ok(operators)
}

fn made(
    alloc: Global,
    plan: &Plan,
    widths: &[usize],
    places: &[u64],
    start: u64,
    node: &Node,
) -> Result<Operator, AllocError>
    requires { IsMakeable plan.now.meaning.windows.items widths.now node.now }
    ensures { IfOk result (λ operator.
        IsMade plan.now.meaning.windows.items plan.now.widths.items widths.now places.now start
        node.now operator) }
{
    let kind = shared(alloc, kind_made(alloc, widths, node)?)?;
    let state = state_made(alloc, &plan.meaning.windows, &plan.widths, widths, node)?;
    Ok(Operator::new(alloc, kind, state, inbox_made(alloc, places, start, node)))
}

fn shared(alloc: Global, kind: Kind) -> Result<Arc<Kind>, AllocError>
    ensures { IfOk result (λ shared. arc_value shared ≡ kind) }
{
    let shared = Arc::new(alloc, kind)?;
    Ok(shared)
}

/// Makes what waits for an operator. At a window that is what its source's stream closes.
fn inbox_made(alloc: Global, places: &[u64], start: u64, node: &Node) -> Inbox
    ensures { InboxStarts places.now start node.now result }
{
    match node {
        Node::Window(source) => first_inbox(place_at(places, *source), start),
        _ => empty_inbox(alloc),
    }
}

fn first_inbox(place: u64, start: u64) -> Inbox
    ensures { ReadsSource place start result }
{
    Inbox::First(Cursor::new(place, start))
}

fn empty_inbox(alloc: Global) -> Inbox
    ensures { result ≡ nothing_waits }
{
    Inbox::Between(Queue::new(alloc))
}

fn place_at(places: &[u64], source: usize) -> u64
    ensures { result ≡ get_or places.now source 0 }
{
    match places.get(source) {
        Some(place) => *place,
        None => 0,
    }
}

/// Appends how many columns the rows of each operator have.
fn add_widths(done: &mut Vec<usize>, sources: &[usize], nodes: &[Node]) -> Result<(), AllocError>
    requires { HaveNarrowRows sources.now done.old.items nodes.now }
    ensures { OnOk result (done.new.items ≡ widths_from sources.now done.old.items nodes.now) }
{
    match nodes {
        [] => Ok(()),
        [node, nodes @ ..] => {
            let width = width_made(sources, done, node);
            done.push(width)?;
            add_widths(done, sources, nodes)
        }
    }
}

/// Returns how many columns the rows of an operator have.
fn width_made(sources: &[usize], done: &[usize], node: &Node) -> usize
    requires { width_made sources.now done.now node.now ≤ MAX_COLUMNS }
    ensures { result ≡ width_made sources.now done.now node.now }
{
    match node {
        Node::Window(source) => width_at(sources, *source),
        Node::Select(input, _) => width_at(done, *input),
        Node::Join(left, right, _) => width_at(done, *left) + width_at(done, *right),
        Node::Project(_, columns) => columns.len(),
        Node::Group(_, _, items) => items.len(),
        Node::Distinct(input) => width_at(done, *input),
        Node::ToStream(input, _) => width_at(done, *input),
    }
}

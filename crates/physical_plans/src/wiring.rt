//! Which operator takes another's outputs.
ghost use Rattle.std.specs.Prelude.{◌≡◌, ◌<◌, ◌+◌, ◌^◌, length, IfOk};
ghost use Rattle.plan.specs.Views.{node_of, nodes_of};
ghost use Rattle.physical_plans.specs.Wiring.{on_left, takes_on, wire_from, wires_of};

use column::Side;
use plan::Node;
use std::alloc::{AllocError, Global};

/// Says where the outputs of an operator go: to a side of the operator with this number. A root's
/// outputs are answers and go to no operator; its number is how many operators the plan has.
#[derive(Clone, Copy, Drop)]
pub struct Wire {
    /// Holds the number of the operator that takes the outputs.
    pub to: usize,
    /// Names the operator's side. It is the left one if the operator has one input, and for a root.
    pub side: Side,
}

/// Returns where the outputs of each operator of a plan go.
///
/// # Errors
/// `AllocError` when out of memory; nothing has changed.
pub fn wires(alloc: Global, nodes: &[Node]) -> Result<Vec<Wire>, AllocError>
    ensures { IfOk result (λ wires. wires.items ≡ wires_of (nodes_of nodes.now)) }
{
    let mut all = Vec::with_capacity(alloc, nodes.len())?;
    for operator in 0..nodes.len() {
        all.push(wire_from(nodes, 0, operator))?;
    }
    Ok(all)
}

/// Finds, among the operators from this number on, the first that takes the rows of another.
fn wire_from(nodes: &[Node], number: usize, operator: usize) -> Wire
    requires { number + length nodes.now < 2 ^ 64 }
    ensures { result ≡ wire_from number (nodes_of nodes.now) operator }
{
    match nodes {
        [] => Wire {
            to: number,
            side: Side::Left,
        },
        [first, nodes @ ..] => match takes_on(first, operator) {
            Some(side) => Wire { to: number, side },
            None => wire_from(nodes, number + 1, operator),
        },
    }
}

/// Returns the side on which an operator takes the rows of another, if it does.
fn takes_on(node: &Node, operator: usize) -> Option<Side>
    ensures { result ≡ takes_on operator (node_of node.now) }
{
    match node {
        Node::Window(_) => None,
        Node::Select(input, _) => on_left(*input, operator),
        Node::Join(left, right, _) => {
            if *left == operator {
                return Some(Side::Left);
            }
            if *right == operator {
                return Some(Side::Right);
            }
            None
        }
        Node::Project(input, _) => on_left(*input, operator),
        Node::Group(input, _, _) => on_left(*input, operator),
        Node::Distinct(input) => on_left(*input, operator),
        Node::ToStream(input, _) => on_left(*input, operator),
    }
}

fn on_left(input: usize, operator: usize) -> Option<Side>
    ensures { result ≡ on_left input operator }
{
    if input == operator {
        return Some(Side::Left);
    }
    None
}

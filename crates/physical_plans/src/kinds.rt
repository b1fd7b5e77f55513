//! What the operators of a plan do.
ghost use Rattle.std.specs.Prelude.{◌≡◌, ◌≤◌, IfOk, length, map, get_or};
ghost use Rattle.std.specs.List.{AllByRecursion};
ghost use Rattle.values.specs.Resolved.{condition_of};
ghost use Rattle.group.specs.Groups.{column_at, once_each};
ghost use Rattle.names.specs.Views.{conditions_of};
ghost use Rattle.row_nodes.specs.Steps.{IsOfOneSource};
ghost use Rattle.turn.specs.declared.kinds.Kind.TheVariants as kind;
ghost use Rattle.physical_plans.specs.Beginnings.{HasMakeableKind, grouping, kind_made};
ghost use Rattle.physical_plans.specs.Conjuncts.{all_steps};

use crate::conjuncts::all_steps;
use group::GroupBy;
use plan::Node;
use std::alloc::{AllocError, Global};
use turn::{ColumnList, Kind, StepList};
use values::{Condition, ListItem, MAX_COLUMNS, SourceColumn};

/// Makes what an operator does. It reads how many columns each operator's rows have.
pub(crate) fn kind_made(alloc: Global, widths: &[usize], node: &Node) -> Result<Kind, AllocError>
    requires { HasMakeableKind widths.now node.now }
    ensures { IfOk result (λ kind. kind ≡ kind_made widths.now node.now) }
{
    match node {
        Node::Window(_) => Ok(Kind::Window),
        Node::Select(_, conditions) => select_kind(alloc, conditions),
        Node::Join(_, _, _) => Ok(Kind::Join),
        Node::Project(_, places) => project_kind(alloc, places),
        Node::Group(_, by, items) => Ok(Kind::Group(grouping(alloc, by, items)?)),
        Node::Distinct(input) => Ok(Kind::Group(once_each(alloc, widths, *input)?)),
        Node::ToStream(_, _) => Ok(Kind::ToStream),
    }
}

fn select_kind(alloc: Global, conditions: &[Condition]) -> Result<Kind, AllocError>
    requires { AllByRecursion (λ c. IsOfOneSource (condition_of c)) conditions.now }
    ensures { IfOk result (λ k. k ≡ kind.Select (all_steps (conditions_of conditions.now))) }
{
    let steps = all_steps(alloc, conditions)?;
    Ok(Kind::Select(StepList { steps }))
}

fn project_kind(alloc: Global, places: &[usize]) -> Result<Kind, AllocError>
    requires { length places.now ≤ MAX_COLUMNS }
    ensures { IfOk result (λ k. k ≡ kind.Project places.now) }
{
    let columns = Vec::from_slice(alloc, places)?;
    Ok(Kind::Project(ColumnList::new(columns)))
}

/// Makes the grouping of these columns and this list. The columns are those of the one row between
/// operators.
pub(crate) fn grouping(
    alloc: Global,
    by: &[usize],
    items: &[ListItem],
) -> Result<GroupBy, AllocError>
    requires by { length by.now ≤ MAX_COLUMNS }
    requires items { length items.now ≤ MAX_COLUMNS }
    ensures { IfOk result (λ g. g ≡ grouping by.now items.now) }
{
    let columns = columns_at(alloc, by)?;
    let items = Vec::from_slice(alloc, items)?;
    Ok(GroupBy::new(columns, items))
}

fn columns_at(alloc: Global, places: &[usize]) -> Result<Vec<SourceColumn>, AllocError>
    ensures { IfOk result (λ columns. columns.items ≡ map column_at places.now) }
{
    let mut columns = Vec::new(alloc);
    for place in places {
        columns.push(SourceColumn {
            source: 0,
            column: *place,
        })?;
    }
    Ok(columns)
}

/// Makes Distinct over the rows of an operator.
pub(crate) fn once_each(
    alloc: Global,
    widths: &[usize],
    input: usize,
) -> Result<GroupBy, AllocError>
    requires { get_or widths.now input 0 ≤ MAX_COLUMNS }
    ensures { IfOk result (λ g. g ≡ once_each (get_or widths.now input 0)) }
{
    let group = GroupBy::distinct(alloc, width_at(widths, input))?;
    Ok(group)
}

/// Returns how many columns the rows of an operator have; 0 if there is no such operator.
pub(crate) fn width_at(widths: &[usize], operator: usize) -> usize
    ensures { result ≡ get_or widths.now operator 0 }
{
    match widths.get(operator) {
        Some(width) => *width,
        None => 0,
    }
}

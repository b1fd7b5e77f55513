//! Groups and their excerpts, compared by value.
ghost use Rattle.group.specs.Turns.{RoomFor};

use crate::add_line;
use crate::turns::{node, two};
use column::Side;
use group::{Group, GroupBy, work};
use op_queue::Item as Queued;
use std::alloc::{AllocError, Global};
use turn::{Excerpt, Kind};
use values::{ListItem, SourceColumn};

/// Makes `Select k, ITEM From S Group By k` for the column `k`.
fn listed(alloc: Global, column: usize, item: ListItem) -> Result<GroupBy, AllocError> {
    let by = Vec::from_slice(alloc, &[SourceColumn { source: 0, column }])?;
    let items = Vec::from_slice(alloc, &[ListItem::Key(0), item])?;
    Ok(GroupBy::new(by, items))
}

/// Makes `Select k, Count(*) From S Group By k` for the first column.
fn counted(alloc: Global) -> Result<GroupBy, AllocError> {
    listed(alloc, 0, ListItem::CountAll)
}

/// Lets groups take an item.
fn take(alloc: Global, group: &mut Group, shape: &GroupBy, item: &Queued) -> Result<(), AllocError>
    requires { RoomFor group.old item.now }
{
    let near = group.near(alloc, item)?;
    let (_, change) = work(alloc, shape, item, &near)?;
    group.apply(item, &change)
}

/// Makes the groups that have taken the rows of 7 and of `number`.
fn filled(alloc: Global, number: i64) -> Result<Group, AllocError> {
    let shape = counted(alloc)?;
    let mut group = Group::new(alloc, counted(alloc)?)?;
    let rows = Queued::Rows(4, two(alloc, 7, number)?);
    take(alloc, &mut group, &shape, &rows)?;
    Ok(group)
}

/// Returns what a tick of these groups needs.
fn touched(alloc: Global, number: i64) -> Result<Excerpt, AllocError> {
    let group = filled(alloc, number)?;
    Ok(Excerpt::Groups(group.near(alloc, &Queued::Tick(4))?))
}

/// Returns whether the node that counts by the first column is the same as one with this column and
/// this item.
fn is_same_group(alloc: Global, column: usize, item: ListItem) -> Result<bool, AllocError> {
    let counted = node(alloc, Side::Left, Kind::Group(counted(alloc)?))?;
    let other = node(alloc, Side::Left, Kind::Group(listed(alloc, column, item)?))?;
    Ok(counted.is_same(&other))
}

fn add_shapes(alloc: Global, text: &mut String) -> Result<(), AllocError> {
    let name = "groups are told apart by their columns and lists";
    add_line(
        text,
        name,
        "by 0 and by 0",
        is_same_group(alloc, 0, ListItem::CountAll)?,
    )?;
    add_line(
        text,
        name,
        "by 0 and by 1",
        is_same_group(alloc, 1, ListItem::CountAll)?,
    )?;
    add_line(
        text,
        name,
        "count and key",
        is_same_group(alloc, 0, ListItem::Key(0))?,
    )
}

/// Returns whether a tick needs the same after the row 7 twice as after 7 and `number`.
fn needs_the_same(alloc: Global, number: i64) -> Result<bool, AllocError> {
    let sevens = touched(alloc, 7)?;
    let other = touched(alloc, number)?;
    Ok(sevens.is_same(&other))
}

fn add_excerpts(alloc: Global, text: &mut String) -> Result<(), AllocError> {
    let name = "excerpts of groups are told apart by value";
    add_line(text, name, "7 7 and 7 7", needs_the_same(alloc, 7)?)?;
    add_line(text, name, "7 7 and 7 8", needs_the_same(alloc, 8)?)
}

/// Adds all lines of groups.
pub(crate) fn add_all(alloc: Global, text: &mut String) -> Result<(), AllocError> {
    add_shapes(alloc, text)?;
    add_excerpts(alloc, text)
}

//! Holds the operators of a plan.
ghost use Rattle.std.specs.Prelude.{◌≡◌, Some};
ghost use Rattle.plan.specs.Kinds.{kind_of, kind_name};
ghost use Rattle.plan.specs.Paths.{is_window, takes};
ghost use Rattle.plan.specs.Views.{node_of};

use std::fmt;
use values::{Condition, ListItem, StreamOperator};

/// Is a key of a join: a place in the left row, and one in the right.
#[derive(Clone, Copy, Debug, PartialEq, Eq)]
pub struct Key {
    /// Holds the place in the left row.
    pub left: usize,
    /// Holds the place in the right row.
    pub right: usize,
}

/// Is an operator. Its inputs are the numbers of operators before it, and its columns are places in
/// the rows of its input.
///
/// In conditions and items the one row of the input is source 0.
#[derive(Drop)]
pub enum Node {
    /// Is the window of a source, by the source's number in the order of From.
    Window(usize),
    /// Keeps the rows of the input at which all conditions are true.
    Select(usize, Vec<Condition>),
    /// Puts the rows of the left input beside those of the right one with equal keys, left columns
    /// first. Null equals nothing.
    Join(usize, usize, Vec<Key>),
    /// Keeps the listed columns.
    Project(usize, Vec<usize>),
    /// Groups the rows by Group By's columns, none if it is missing, and makes the list of each
    /// group.
    Group(usize, Vec<usize>, Vec<ListItem>),
    /// Keeps each row once.
    Distinct(usize),
    /// Makes the stream of the input's relation. It is the root.
    ToStream(usize, StreamOperator),
}

/// Says what an operator does. It is shown by its name, as `Window`.
#[derive(Clone, Copy, Debug, PartialEq, Eq)]
pub enum NodeKind {
    Window,
    Select,
    Join,
    Project,
    Group,
    Distinct,
    ToStream,
}

impl Node {
    /// Returns what the operator does.
    pub fn kind(&self) -> NodeKind
        ensures { result ≡ kind_of (node_of self.now) }
    {
        match self {
            Node::Window(_) => NodeKind::Window,
            Node::Select(_, _) => NodeKind::Select,
            Node::Join(_, _, _) => NodeKind::Join,
            Node::Project(_, _) => NodeKind::Project,
            Node::Group(_, _, _) => NodeKind::Group,
            Node::Distinct(_) => NodeKind::Distinct,
            Node::ToStream(_, _) => NodeKind::ToStream,
        }
    }

    /// Returns whether the operator is a window.
    pub fn is_window(&self) -> bool
        ensures { result ≡ is_window (node_of self.now) }
    {
        matches!(self, Node::Window(_))
    }

    /// Returns whether the operator takes the rows of the one with this number.
    pub fn takes(&self, operator: usize) -> bool
        ensures { result ≡ takes operator (node_of self.now) }
    {
        match self {
            Node::Window(_) => false,
            Node::Join(left, right, _) => *left == operator || *right == operator,
            Node::Select(input, _)
            | Node::Project(input, _)
            | Node::Group(input, _, _)
            | Node::Distinct(input)
            | Node::ToStream(input, _) => *input == operator,
        }
    }
}

impl fmt::Display for NodeKind {
    ghost output = { λ kind. Some (kind_name kind) };

    fn fmt<W: fmt::Write>(&self, f: &mut fmt::Formatter<W>) -> fmt::Result {
        match self {
            NodeKind::Window => write!(f, "Window"),
            NodeKind::Select => write!(f, "Select"),
            NodeKind::Join => write!(f, "Join"),
            NodeKind::Project => write!(f, "Project"),
            NodeKind::Group => write!(f, "Group"),
            NodeKind::Distinct => write!(f, "Distinct"),
            NodeKind::ToStream => write!(f, "ToStream"),
        }
    }
}

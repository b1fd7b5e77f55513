//! What turns need of the states of operators.
ghost use Rattle.std.specs.Prelude.{◌≡◌, ◌↔◌, IsTrue};

use std::marker::Model;
use windows::WindowExcerpt;

/// Holds for each row the rows of the other side that it meets; for a tick, whether the other side
/// has ticked.
#[derive(Drop)]
pub struct MetRows {
    /// Holds the join's own excerpt.
    pub near: join::JoinExcerpt,
}

impl Model for MetRows {
    ghost use Rattle.join.specs.Turns.{JoinExcerpt, excerpt_of};

    ghost Value = { JoinExcerpt };

    ghost view = { λ m. excerpt_of m.near };
}

/// Is the excerpt of an operator's state that a turn needs.
#[derive(Drop)]
pub enum Excerpt {
    /// Is the excerpt of operators without a state.
    Nothing,
    /// Holds the rows that leave or enter a window.
    Window(WindowExcerpt),
    /// Holds what the item meets on the other side of a join.
    Met(MetRows),
    /// Holds the touched groups; none if the item is rows.
    Groups(group::GroupExcerpt),
    /// Holds the lists that a root's answers are made of; none if the item is rows.
    Lists(to_stream::RootExcerpt),
}

impl Excerpt {
    /// Returns whether the excerpts are equal: of one kind, with the same rows or groups in the
    /// same order. Lists of one bag are equal in any order.
    pub fn is_same(&self, other: &Excerpt) -> bool
        ensures { IsTrue result ↔ (self.now ≡ other.now) }
    {
        match (self, other) {
            (Excerpt::Nothing, Excerpt::Nothing) => true,
            (Excerpt::Window(rows), Excerpt::Window(others)) => rows.is_same(others),
            (Excerpt::Met(met), Excerpt::Met(other)) => met.near.is_same(&other.near),
            (Excerpt::Groups(groups), Excerpt::Groups(others)) => groups.is_same(others),
            (Excerpt::Lists(lists), Excerpt::Lists(others)) => lists.is_same(others),
            _ => false,
        }
    }
}

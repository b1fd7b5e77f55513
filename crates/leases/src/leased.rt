//! Names what a lease answers.

use turn::Turn;

/// Is what a lease answers.
#[derive(Drop)]
pub enum Leased {
    /// Holds a turn, to be run and brought back.
    Turn(Turn),
    /// Says that no operator may take anything.
    Idle,
}

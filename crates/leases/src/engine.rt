//! Wraps the state in an engine that is always sound.

mod answering;
mod forgets;
mod looks;
mod takes;
mod threads;
mod turns;

use crate::state::EngineState;
use std::marker::Model;

/// Runs many queries. It holds the streams, the registered queries and what is left of each, the
/// turns that are out, and the slots of all operators.
#[derive(Drop)]
pub struct Engine {
    /// Holds all of it, part by part.
    state: EngineState,
}

impl Model for Engine {
    ghost use Rattle.std.specs.Coded.{codes};
    ghost use Rattle.values.specs.contracts.resolved.Condition as condition;
    ghost use Rattle.leases.specs.Sound.{IsSound};
    ghost use Rattle.leases.specs.declared.state.EngineState.{EngineState as PlainState};

    ghost Value = { PlainState };

    ghost coded = { Prim.hlevel (codes, condition.the_row.coded) };

    ghost view = { λ e. e.state };

    ghost invariant = { λ e. IsSound e.state };
}

//! Defines the step of a window that slides.
ghost use Rattle.std.specs.Prelude.{◌≡◌, ◌<◌};

use std::marker::Model;

/// Says by how many instants a window slides at a time, at least 1.
#[derive(Clone, Copy, Debug)]
pub struct Step {
    /// Holds the number of instants.
    instants: u64,
}

impl Model for Step {
    ghost use Rattle.std.specs.Prelude.{ℕ, ◌<◌, refl};

    ghost Value = { ℕ };

    ghost view = { λ s. s.instants };

    ghost invariant = { λ s. 0 < s.instants };

    ghost inverse = { λ n. record { instants = n } };

    ghost inverse_ok = { λ a h. refl };
}

impl Step {
    /// Returns the step of so many instants. The caller makes sure that they are not 0.
    pub fn new(instants: u64) -> Step
        requires { 0 < instants }
        ensures { result ≡ instants }
    {
        Step { instants }
    }

    /// Returns the number of instants, at least 1.
    pub fn get(self) -> u64
        ensures value { result ≡ self }
        ensures positive { 0 < result }
    {
        self.instants
    }
}

//! Forgets by itself, when the history has grown enough.
ghost use Rattle.std.specs.Prelude.{◌≡◌, false};
ghost use Rattle.hub.specs.Steps.{ForgetsWhenDue, IsReplayed};

use crate::locked::Locked;
use reference::Fault;

impl Locked {
    /// Returns whether it is time to forget: the history holds at least `values` values, and as
    /// many as the last opening kept. It is also time when one entry in 16 of the history's limit
    /// is left. With `values` 0 it is never time. Takes no memory.
    ///
    /// A row counts as four values and four for each column, an answer as two and one for each. An
    /// entry counts as 16. Where `forget_if_due` ran out of memory, it is time again at one eighth
    /// more values, or when the entries come closer to their limit.
    #[tactic(auto, unfolding(crate::specs::Steps::engine_at))]
    pub fn is_due(&self, values: u64) -> bool
        ensures never { values ≡ 0 → result ≡ false }
        ensures legal { IsReplayed self.now }
    {
        let is_due = self.measure.is_due(values, self.history.len() as u64);
        if values == 0 {
            return false;
        }
        is_due
    }

    /// Forgets if `is_due` says that it is time. Returns whether it forgot.
    ///
    /// # Errors
    /// `OutOfMemory` when out of memory; then nothing has changed, except when it is due again.
    #[tactic(auto, unfolding(crate::specs::Steps::engine_at))]
    pub fn forget_if_due(&mut self, values: u64) -> Result<bool, Fault>
        ensures { ForgetsWhenDue self.old values result self.new }
    {
        if !self.is_due(values) {
            return Ok(false);
        }
        match self.forget() {
            Ok(()) => Ok(true),
            Err(fault) => {
                self.put_off();
                Err(fault)
            }
        }
    }

    // Notes that a forget ran out of memory.
    fn put_off(&mut self)
        ensures { self.new ≡ self.old }
    {
        self.measure.put_off(self.history.len() as u64);
    }
}

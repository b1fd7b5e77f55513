//! Finds what the text of a query means to the plain engine.
ghost use Rattle.std.specs.Prelude.{◌≡◌, IfOk, length, true};
ghost use Rattle.std.specs.Option.{option_copied};
ghost use Rattle.names.specs.Sound.{has_narrow_rows};
ghost use Rattle.plan.specs.Chart.{given_by};
ghost use Rattle.reference.specs.Commands.{found};
ghost use Rattle.reference.specs.Finds.{Finds};
ghost use Rattle.reference.specs.PlainViews.{machine_in};

use crate::fault::Fault;
use crate::finding::find_plan;
use crate::plain::Plain;
use plan::{Chart, Plan};

impl Plain {
    /// Returns the plan of the text over the declared streams.
    pub(crate) fn find(&self, text: &str, chart: Option<&Chart>) -> Result<Plan, Fault>
        ensures finds { Finds
            (found (machine_in self.now) text.now (given_by (option_copied chart.entry))) result }
        ensures fits { IfOk result (λ p. has_narrow_rows p.meaning.shape ≡ true) }
        ensures sources { IfOk result (λ p. length p.meaning.windows.items
            ≡ length p.streams.items) }
    {
        find_plan(self.alloc, &self.catalog, text, chart)
    }
}

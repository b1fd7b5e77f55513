//! Names the faults of plans, in the order of their tests.
use names::{ResolveError, ResolveFault};
use std::alloc::AllocError;
use std::fmt;

/// Says what is wrong with the names of a query, or with its chart. Running out of memory is none
/// of these: it says nothing of the query, and is beside them in `PlanError`.
#[derive(Clone, Copy, Debug, PartialEq, Eq)]
pub enum PlanFault {
    /// Says that the names of the query are at fault.
    Unresolved(ResolveFault),
    /// Says that the chart has another length than the plan, a cost or size out of range, or a root
    /// size that is not 0.
    BadChart,
}

/// Says why a query was not planned.
#[derive(Clone, Copy, Debug, PartialEq, Eq)]
pub enum PlanError {
    /// Says that memory ran out. This says nothing of the query.
    OutOfMemory,
    /// Says that the query or its chart is at fault.
    Fault(PlanFault),
}

impl PlanFault {
    ghost use Rattle.std.specs.Prelude.{◌≡◌};
    ghost use Rattle.plan.specs.FaultTexts.{fault_text};

    /// Returns its number and name.
    pub fn name(&self) -> &'static str
        ensures { result.now ≡ fault_text self.now }
    {
        match self {
            PlanFault::Unresolved(fault) => fault.name(),
            PlanFault::BadChart => "Q14 BadChart",
        }
    }
}

impl fmt::Display for PlanFault {
    ghost use Rattle.std.specs.Prelude.{Some};
    ghost use Rattle.plan.specs.FaultTexts.{fault_text};

    ghost output = { λ fault. Some (fault_text fault) };

    fn fmt<W: fmt::Write>(&self, f: &mut fmt::Formatter<W>) -> fmt::Result {
        f.write_str(self.name())
    }
}

impl From<AllocError> for PlanError {
    ghost use Rattle.std.specs.Prelude.{◌≡◌};
    ghost use Rattle.plan.specs.declared.fault.PlanError.TheVariants.{OutOfMemory};

    ghost from_gives = { λ _ e. e ≡ OutOfMemory };

    fn from(_: AllocError) -> Self {
        PlanError::OutOfMemory
    }
}

impl From<ResolveError> for PlanError {
    ghost use Rattle.std.specs.Prelude.{◌≡◌};
    ghost use Rattle.plan.specs.Told.{error_from};

    ghost from_gives = { λ resolving e. e ≡ error_from resolving };

    fn from(error: ResolveError) -> Self {
        match error {
            ResolveError::OutOfMemory => PlanError::OutOfMemory,
            ResolveError::Fault(fault) => PlanError::Fault(PlanFault::Unresolved(fault)),
        }
    }
}

//! Lists the faults of names, in the order of their tests.
ghost use Rattle.std.specs.Prelude.{◌≡◌};
ghost use Rattle.names.specs.Faults as spec;
ghost use Rattle.names.specs.Told.{Refuses, tests_of};

use std::alloc::AllocError;
use std::fmt;

/// Says what is wrong with the names of a query. Running out of memory is none of these, since it
/// says nothing of the query; it is beside them in `ResolveError`.
#[derive(Clone, Copy, Debug, PartialEq, Eq)]
pub enum ResolveFault {
    /// Says that a source names no declared stream.
    UnknownStream,
    /// Says that a reference matches no column.
    UnknownColumn,
    /// Says that a reference matches more than one column.
    AmbiguousColumn,
    /// Says that two sources have the same name.
    DuplicateAlias,
    /// Says that a source after the first has no join key.
    NoJoinKey,
    /// Says that in a grouped query the list is `*`, or has a column that Group By does not have.
    NotGrouped,
    /// Says that there are more than `MAX_COLUMNS` items, Group By columns or Partition By columns.
    TooWide,
}

/// Says why the names of a query were not resolved.
#[derive(Clone, Copy, Debug, PartialEq, Eq)]
pub enum ResolveError {
    /// Says that memory ran out, and nothing of the query.
    OutOfMemory,
    /// Says that the query is at fault.
    Fault(ResolveFault),
}

impl ResolveFault {
    ghost use Rattle.names.specs.FaultTexts.{fault_text};

    /// Returns the fault's number and name.
    pub fn name(&self) -> &'static str
        ensures { result.now ≡ fault_text self.now }
    {
        match self {
            ResolveFault::UnknownStream => "Q7 UnknownStream",
            ResolveFault::UnknownColumn => "Q8 UnknownColumn",
            ResolveFault::AmbiguousColumn => "Q9 AmbiguousColumn",
            ResolveFault::DuplicateAlias => "Q10 DuplicateAlias",
            ResolveFault::NoJoinKey => "Q11 NoJoinKey",
            ResolveFault::NotGrouped => "Q12 NotGrouped",
            ResolveFault::TooWide => "Q13 TooWide",
        }
    }
}

impl fmt::Display for ResolveFault {
    ghost use Rattle.std.specs.Prelude.{Some};
    ghost use Rattle.names.specs.FaultTexts.{fault_text};

    ghost output = { λ fault. Some (fault_text fault) };

    fn fmt<W: fmt::Write>(&self, f: &mut fmt::Formatter<W>) -> fmt::Result {
        f.write_str(self.name())
    }
}

impl From<AllocError> for ResolveError {
    ghost use Rattle.names.specs.declared.fault.ResolveError.TheVariants.{OutOfMemory};

    ghost from_gives = { λ _ e. e ≡ OutOfMemory };

    fn from(_: AllocError) -> Self {
        ResolveError::OutOfMemory
    }
}

impl From<ResolveFault> for ResolveError {
    ghost use Rattle.names.specs.declared.fault.ResolveError.TheVariants.{Fault};

    ghost from_gives = { λ fault e. e ≡ Fault fault };

    fn from(fault: ResolveFault) -> Self {
        ResolveError::Fault(fault)
    }
}

/// Says which tests are met.
#[derive(Clone, Copy)]
pub(crate) struct Tests {
    pub(crate) unknown_stream: bool,
    pub(crate) unknown_column: bool,
    pub(crate) ambiguous_column: bool,
    pub(crate) duplicate_alias: bool,
    pub(crate) no_join_key: bool,
    pub(crate) not_grouped: bool,
    pub(crate) too_wide: bool,
}

/// Refuses by the first test that is met.
///
/// # Errors
/// The fault of that test.
pub(crate) fn refuse(tests: Tests) -> Result<(), ResolveFault>
    ensures { Refuses result (spec.first_of (tests_of tests)) }
{
    if tests.unknown_stream {
        return Err(ResolveFault::UnknownStream);
    }
    if tests.unknown_column {
        return Err(ResolveFault::UnknownColumn);
    }
    if tests.ambiguous_column {
        return Err(ResolveFault::AmbiguousColumn);
    }
    if tests.duplicate_alias {
        return Err(ResolveFault::DuplicateAlias);
    }
    if tests.no_join_key {
        return Err(ResolveFault::NoJoinKey);
    }
    if tests.not_grouped {
        return Err(ResolveFault::NotGrouped);
    }
    if tests.too_wide {
        return Err(ResolveFault::TooWide);
    }
    Ok(())
}

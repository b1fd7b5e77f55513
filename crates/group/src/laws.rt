//! The law of one step.

ghost use Rattle.group.specs.Laws.{Laws};

/// Proves what a step does to a state of groups, whatever bag it has taken in and whatever it has
/// emitted.
///
/// - Rows of any sign are taken in, and nothing is emitted.
/// - A tick's outputs turn what was emitted into the groups of the bag, as CQL defines them. They
///   may be cut anywhere.
/// - The groups of all columns are Distinct.
pub fn groups_keep_their_laws()
    ensures { Laws }
{}

//! States laws of the definitions.

ghost use Rattle.std.specs.Prelude.{◌≡◌, List, ℕ, Result, Ok};
ghost use Rattle.cql_reader.specs.Fault.{Fault};
ghost use Rattle.cql_reader.specs.Query.{Query};
ghost use Rattle.cql_reader.specs.Reading.{IsAnswer};
ghost use Rattle.cql_reader.specs.Judging.{reading};
ghost use Rattle.cql_reader.specs.WellFormed.{IsWellFormed};

/// States that each text has one right answer, the one that `read` gives.
///
/// The function does nothing: its contract is the law. The grammar, and what may follow, say what
/// is right, in words that know no order of trial and no lookahead. `reading` finds it by one pass
/// over the tokens.
pub fn every_text_has_one_answer()
    ensures right { (text : List ℕ) → IsAnswer text (reading text) }
    ensures only { (text : List ℕ) (answer : Result Query Fault) → IsAnswer text answer
        → answer ≡ reading text }
{}

/// States that a query that is read is well formed. It has one to four sources, and a list that is
/// not `*` has an item. Windows and numbers are within their ranges.
pub fn every_query_is_well_formed()
    ensures { (text : List ℕ) (query : Query) → reading text ≡ Ok query → IsWellFormed query }
{}

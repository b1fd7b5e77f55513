//! States what holds of every net: a function that does nothing, with the law.
ghost use Rattle.std.specs.Prelude.{ℕ, List};
ghost use Rattle.reference.specs.Machine.{Machine, Registered};
ghost use Rattle.laws_dataflow.specs.Laws.{GivesABeginning, GivesAll, Stands};

/// Says that what a good query has given is a prefix of CQL's answers for the instants that its
/// streams' heartbeats have closed. It is all of them once no operator has anything that it may
/// take.
pub fn good_queries_give_their_answers()
    ensures beginning { (vs : List ℕ) (m : Machine) (q : Registered) → Stands vs m q
        → GivesABeginning m q }
    ensures whole { (vs : List ℕ) (m : Machine) (q : Registered) → Stands vs m q
        → GivesAll m q }
{}

//! States what holds of every running query: functions that do nothing, each with a law.
ghost use Rattle.std.specs.Prelude.{ℕ, List};
ghost use Rattle.reference.specs.Machine.{Machine, Registered};
ghost use Rattle.laws_queries.specs.Forgetting.{RunsOnAtForgetting};
ghost use Rattle.laws_queries.specs.Laws.{GivesItsAnswers};
ghost use Rattle.laws_queries.specs.Passing.{RunsOnAtPassing};

/// Says that what a running query has given is a prefix of CQL's answers for the instants that its
/// streams' heartbeats have closed. It is all of them once none of its operators is ready.
pub fn running_queries_give_their_answers()
    ensures { (vs : List ℕ) (ws : List ℕ) (m : Machine) (q : Registered)
        → GivesItsAnswers vs ws m q }
{}

/// Says that a running query runs on over what its streams keep, with its operators and queues as
/// they are. They must keep the elements that its windows still show after the last tick that its
/// root has taken, and those that came after. Its answers are then those that wait, and those from
/// that instant on.
pub fn forgetting_keeps_queries()
    ensures { (vs : List ℕ) (ws : List ℕ) (m : Machine) (q : Registered)
        → RunsOnAtForgetting vs ws m q }
{}

/// Says that a running query runs on when it passes instants at which it has nothing to do. It has
/// given the same answers, its root has ticked at the last of these instants, and their ticks have
/// left its windows' queues. Nothing may wait between its operators.
pub fn passing_keeps_queries()
    ensures { (vs : List ℕ) (ws : List ℕ) (m : Machine) (q : Registered)
        → RunsOnAtPassing vs ws m q }
{}

//! States what holds of an engine of many queries: functions that do nothing, each with a law.
ghost use Rattle.std.specs.Prelude.{◌≡◌, ◌≤◌, ℕ, List, Ok, Some, false, slice_get};
ghost use Rattle.values.specs.Condition.{Condition};
ghost use Rattle.values.specs.Row.{Row};
ghost use Rattle.cql_reader.specs.Query.{Query};
ghost use Rattle.cql_reader.specs.Judging.{reading};
ghost use Rattle.names.specs.Catalog as catalogs;
ghost use Rattle.names.specs.Resolved.{resolved};
ghost use Rattle.row_nodes.specs.Steps.{truths_needed};
ghost use Rattle.reference.specs.Machine as machine;
ghost use Rattle.reference.specs.Machine.{Machine, Registered, Stream};
ghost use Rattle.needed_rows.specs.Queries.{AreCaughtUp, readers_over};
ghost use Rattle.reference.specs.Alike.{Alike};
ghost use Rattle.laws_forgetting.specs.Partly.{PartlyAlike};
ghost use Rattle.laws_engine.specs.Bounds.{HaveFewClosed};
ghost use Rattle.laws_engine.specs.Engines.{Broken, Lease, PlainEngine, query_at};
ghost use Rattle.laws_engine.specs.Good.{GoodEngine};
ghost use Rattle.laws_engine.specs.Engines.{remains_at, world_of};
ghost use Rattle.laws_engine.specs.Orders.{LeaveOneWorld};
ghost use Rattle.laws_engine.specs.Passing.{HasPassed};
ghost use Rattle.laws_engine.specs.Promises.{KeepsItsPromises};
ghost use Rattle.laws_engine.specs.Histories.{Breaks, Call, IsCallStep, LeadTo, empty};
ghost use Rattle.laws_engine.specs.Openings.{forgotten, marks_by};
ghost use Rattle.laws_engine.specs.Unbroken.{IsUnbroken, goes_on};
ghost use Rattle.laws_engine.specs.Remembered.{GivesAsRemembered, LeadBoth};

use lane_kernels::MAX_TRUTHS;

/// Says that the condition of a text needs at most `MAX_TRUTHS` truths at a time, whatever its
/// names mean. So its steps fit the stack that they run on.
pub fn conditions_of_texts_fit()
    ensures { (text : List ℕ) (q : Query) (catalog : List catalogs.Stream) (c : Condition)
        → reading text ≡ Ok q → (resolved q catalog).condition ≡ Some c
        → truths_needed c ≤ MAX_TRUTHS }
{}

/// Says what a good engine gives. For each query, the answers taken followed by those that wait are
/// a prefix of CQL's answers for the instants that its streams have closed. They are all of them
/// once no operator of the query may be leased or is. No operator that may be leased has a greater
/// slope than that of the first slot.
pub fn good_engines_keep_their_promises()
    ensures { (e : PlainEngine) → GoodEngine e → KeepsItsPromises e }
{}

/// Says that an engine keeps its promises after any list of calls on the empty engine. It does so
/// whatever was declared, registered, appended, closed, taken, dropped or forgotten, and whatever
/// turns went out and came back.
///
/// For each query, the answers taken followed by those that wait are a prefix of CQL's answers for
/// the closed instants. They are all of them once no operator of the query may be leased or is. The
/// first slot is the steepest.
pub fn engines_keep_their_promises()
    ensures { (calls : List Call) (e : PlainEngine) → LeadTo empty calls e → KeepsItsPromises e }
{}

/// Says that a good engine stays good when it forgets what no window shows again. Queues, turns
/// that are out, slots and answers that wait are as they were. Each running query goes on from the
/// instant after the last tick that its root has taken.
pub fn forgotten_engines_are_good()
    ensures { (e : PlainEngine) → GoodEngine e → GoodEngine (forgotten e) }
{}

/// Says that no call can distinguish a good engine from the one that has forgotten: the machines
/// are alike, and the same answers wait. No query may be broken, since nothing is kept for a broken
/// query except the answers that wait.
pub fn forgotten_engines_are_alike()
    ensures { (e : PlainEngine) → GoodEngine e → IsUnbroken e
        → Alike (world_of e) (world_of (forgotten e)) }
{}

/// Says that forgetting changes no command's fault, and no later answer of a query that runs or is
/// registered later, whatever other queries broke. The machines are partly alike, and stay so.
pub fn forgotten_engines_answer_alike()
    ensures { (e : PlainEngine) → GoodEngine e
        → PartlyAlike (goes_on e) e.machine (forgotten e).machine }
{}

/// Says that after any list of calls on the empty engine, forgetting loses no answer, whatever was
/// forgotten and whatever broke. What waits at a running query is a prefix of its untaken answers
/// over all that ever came. It is all of them once no operator of the query may be leased or is.
/// What waits at a broken query is a prefix of them, too.
///
/// It is as if nothing had been forgotten: the machine that receives the same accepts the same
/// commands.
pub fn engines_forget_no_answer()
    ensures { (calls : List Call) (e : PlainEngine) (m : Machine)
        → LeadBoth empty machine.empty calls e m → GivesAsRemembered e m }
{}

/// Says that no running query's mark is above what its streams have closed.
pub fn marks_are_caught_up()
    ensures { (e : PlainEngine) → GoodEngine e → (n : ℕ) (s : Stream)
        → slice_get e.machine.streams n ≡ Some s
        → AreCaughtUp s.first_open
        (readers_over n e.machine.queries (marks_by e.machine.queries e.queries)) }
{}

/// Says that what bounds the answers of a good engine's queries bounds those of the engine that has
/// forgotten. It assumes that exactly the dropped queries have nothing left.
pub fn forgotten_engines_close_few()
    ensures { (e : PlainEngine) → GoodEngine e → HaveFewClosed e.machine
        → ((n : ℕ) (q : Registered) (answers : List (ℕ × Row)) (upto : ℕ) → query_at e n ≡ Some q
        → remains_at e n ≡ Broken answers upto → q.is_dropped ≡ false)
        → HaveFewClosed (forgotten e).machine }
{}

/// Says that a good engine stays good when a running query passes instants at which it has nothing
/// to do. No turn of the query may be out. Its answers, the machine, and all other queries and
/// turns are as they were.
pub fn passes_keep_engines_good()
    ensures { (e : PlainEngine) (n : ℕ) (b : ℕ) (e2 : PlainEngine) → GoodEngine e
        → HasPassed e n b e2 → GoodEngine e2 }
{}

/// Says that a query that breaks shows its clients what it showed before. The same answers wait,
/// and they are complete up to the same instant.
pub fn breaks_leave_the_world()
    ensures { (e : PlainEngine) (l : Lease) (e2 : PlainEngine) → IsCallStep e (Breaks l) e2
        → world_of e2 ≡ world_of e }
{}

/// Says that forgetting changes of no query, broken or not, up to which instant its answers are
/// complete.
pub fn forgotten_engines_are_as_complete()
    ensures { (e : PlainEngine) → (world_of (forgotten e)).upto ≡ (world_of e).upto }
{}

/// Says that the order of turns does not matter to clients. Turns of operators that might be leased
/// go out and come back in any order. Queries pass instants at which they have nothing to do. Once
/// no turn is out and no operator may be leased, the machine and the answers that wait are the
/// same, whatever the order was.
pub fn steps_leave_one_world()
    ensures { (e : PlainEngine) → GoodEngine e → LeaveOneWorld e }
{}

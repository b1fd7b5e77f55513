//! States what holds of machines and worlds that no command can distinguish.
ghost use Rattle.std.specs.Prelude.{ℕ, ◌≤◌, Bool, Option, List};
ghost use Rattle.values.specs.Row.{Row};
ghost use Rattle.values.specs.Window.{Element, Window};
ghost use Rattle.reference.specs.Machine.{Machine};
ghost use Rattle.reference.specs.Commands.{Command};
ghost use Rattle.reference.specs.Opening.{opening};
ghost use Rattle.reference.specs.Replies.{Reply};
ghost use Rattle.reference.specs.World.{World};
ghost use Rattle.reference.specs.Alike.{Alike, AlikeMachines};
ghost use Rattle.laws_forgetting.specs.Answers.{AnswerAlike, GoOnAlike, GoesOn, StepAlike};
ghost use Rattle.laws_forgetting.specs.Openings.{MayOpen, Moves, NeedsJust};
ghost use Rattle.laws_forgetting.specs.Partly.{GoOnPartlyAlike, MayOpenMarked, PartlyAlike};
ghost use Rattle.laws_forgetting.specs.Partly.{StepPartlyAlike, has_mark};

/// Says that each call answers the same of alike worlds, and leaves them alike.
pub fn alike_worlds_answer_alike()
    ensures { (w : World) (v : World) → Alike w v → AnswerAlike w v }
{}

/// Says that alike machines accept the same commands and refuse the others for the same faults.
/// What one replies, the other may reply, and both are alike after it.
pub fn alike_machines_take_the_same_steps()
    ensures { (m : Machine) (n : Machine) → AlikeMachines m n
        → (c : Command) (r : Reply) → StepAlike m n c r }
{}

/// Says that alike machines go on alike. Whatever commands one accepts in turn, the other accepts
/// with the same replies. Then the same closed answers are left to take of each query. So
/// forgetting changes no later answer.
pub fn alike_machines_go_on_alike()
    ensures { (m : Machine) (n : Machine) → AlikeMachines m n
        → (steps : List (Command × Reply)) (last : Machine) → GoesOn m steps last
        → GoOnAlike n steps last }
{}

/// Says that worlds are alike to themselves, in either order, and from one to the next. So no call
/// can distinguish the last world from the first, however often something is forgotten.
pub fn alike_is_an_equivalence()
    ensures reflexive { (w : World) → Alike w w }
    ensures symmetric { (w : World) (v : World) → Alike w v → Alike v w }
    ensures transitive { (w : World) (v : World) (u : World) → Alike w v → Alike v u → Alike w u }
{}

/// Says that a machine and its opening are alike, at marks up to which the answers were taken or
/// wait.
pub fn openings_are_alike()
    ensures { (m : Machine) (marks : List (Option ℕ)) (waiting : List (List (ℕ × Row)))
        → MayOpen m marks waiting → AlikeMachines m (opening m marks waiting) }
{}

/// Says that machines which are partly alike, at the queries that pass, accept the same commands
/// and refuse the others for the same faults. What one replies, the other may reply, except to a
/// take from a query that does not pass. Both are partly alike after it.
pub fn partly_alike_machines_take_the_same_steps()
    ensures { (passes : ℕ → Bool) (m : Machine) (n : Machine) → PartlyAlike passes m n
        → (c : Command) (r : Reply) → StepPartlyAlike passes m n c r }
{}

/// Says that partly alike machines go on so: whatever commands one accepts in turn, the other
/// accepts, too. Then the same closed answers are left to take of each query that passes, whatever
/// was replied to takes from the others.
pub fn partly_alike_machines_go_on_alike()
    ensures { (passes : ℕ → Bool) (m : Machine) (n : Machine) → PartlyAlike passes m n
        → (steps : List (Command × Reply)) (last : Machine) → GoesOn m steps last
        → GoOnPartlyAlike passes n steps last }
{}

/// Says that a machine and its opening are partly alike, at the queries that have a mark and at all
/// that are registered later. So a query for which nothing is kept changes no other query's
/// answers.
pub fn openings_are_partly_alike()
    ensures { (m : Machine) (marks : List (Option ℕ)) (waiting : List (List (ℕ × Row)))
        → MayOpenMarked m marks waiting
        → PartlyAlike (has_mark marks) m (opening m marks waiting) }
{}

/// Says that a window keeps exactly what it needs. That is what is above the mark, and what it
/// shows at the mark or later when nothing more comes.
pub fn windows_need_just_what_they_show()
    ensures { (start : ℕ) (w : Window) (next : ℕ) (input : List Element)
        → Moves w → start ≤ next → NeedsJust start w next input }
{}

//! Turns that states run in place.
ghost use Rattle.std.specs.Prelude.{◌≡◌, ◌++◌, IfErr, OnErr, OnOk};
ghost use Rattle.op_queue.specs.Forward.{IsForward};
ghost use Rattle.op_queue.specs.Queues.{HasGained, HasGrown};
ghost use Rattle.group.specs.Turns as spec;
ghost use Rattle.turn.specs.Turns.{FitsWindow};
ghost use Rattle.turn.specs.declared.excerpts.Excerpt.TheVariants as nears;
ghost use Rattle.operators.specs.InPlace.{HasQueued, HasTaken, HaveCome, IsAfterItem, MayComeAll};
ghost use Rattle.operators.specs.InPlace.{MayQueue, MayTake, outs_from};
ghost use Rattle.operators.specs.Runs.{StopsAt};
ghost use Rattle.operators.specs.declared.states.State.TheVariants.{Groups};
ghost use Rattle.operators.specs.States.{FitsState, near_of};
ghost use Rattle.windows.specs.Windows as window_turns;

use crate::inboxes::{Inbox, with_queue};
use crate::runs::untaken;
use crate::states::State;
use column::Side;
use group::Group;
use op_queue::{Item, Queue};
use row_nodes::{run_project, run_select};
use std::alloc::{AllocError, Global};
use turn::Kind;
use windows::Window;

impl State {
    /// Takes an item, and appends the turn's outputs to an inbox.
    ///
    /// # Errors
    /// The number of rows that were taken, when out of memory. Exactly these were, and the inbox is
    /// as it was.
    pub(crate) fn run_into(
        &mut self,
        alloc: Global,
        kind: &Kind,
        side: Side,
        item: Item,
        inbox: &mut Inbox,
    ) -> Result<(), usize>
        requires may { MayTake kind.now self.old side item }
        requires come { MayComeAll (outs_from kind.now self.old side item) inbox.old }
        ensures next { OnOk result (IsAfterItem self.old side item self.new) }
        ensures come { OnOk result
            (HaveCome (outs_from kind.now self.old side item) inbox.old inbox.new) }
        ensures err { IfErr result (λ taken.
            StopsAt taken (self.new ≡ self.old) (HasTaken self.old item taken self.new)) }
        ensures same { OnErr result (inbox.new ≡ inbox.old) }
        ensures fits { FitsState self.old item (near_of self.old side item) }
    {
        with_queue!(inbox, queue => self.run_kept_item(alloc, kind, side, item, queue))
    }

    /// Does so with the queue of the inbox.
    fn run_kept_item(
        &mut self,
        alloc: Global,
        kind: &Kind,
        side: Side,
        item: Item,
        queue: &mut Queue,
    ) -> Result<(), usize>
        requires may { MayTake kind.now self.old side item }
        requires queue { MayQueue (outs_from kind.now self.old side item) queue.old }
        ensures next { OnOk result (IsAfterItem self.old side item self.new) }
        ensures queue { OnOk result
            (HasQueued (outs_from kind.now self.old side item) queue.old queue.new) }
        ensures err { IfErr result (λ taken.
            StopsAt taken (self.new ≡ self.old) (HasTaken self.old item taken self.new)) }
        ensures same { OnErr result (queue.new ≡ queue.old) }
        ensures fits { FitsState self.old item (near_of self.old side item) }
    {
        let count = queue.len();
        let _pieces = queue.pieces(); // for the proof
        match self.run(alloc, kind, side, item, queue) {
            Ok(()) => Ok(()),
            Err(taken) => {
                queue.keep_first(count);
                Err(taken)
            }
        }
    }

    /// Takes an item, and pushes the turn's outputs to the back of a queue.
    ///
    /// # Errors
    /// The number of rows that were taken, when out of memory. Exactly these were, and the queue
    /// has only grown by rows of one instant.
    pub(crate) fn run(
        &mut self,
        alloc: Global,
        kind: &Kind,
        side: Side,
        item: Item,
        queue: &mut Queue,
    ) -> Result<(), usize>
        requires may { MayTake kind.now self.old side item }
        requires queue { MayQueue (outs_from kind.now self.old side item) queue.old }
        ensures next { OnOk result (IsAfterItem self.old side item self.new) }
        ensures queue { OnOk result
            (HasQueued (outs_from kind.now self.old side item) queue.old queue.new) }
        ensures err { IfErr result (λ taken.
            StopsAt taken (self.new ≡ self.old) (HasTaken self.old item taken self.new)) }
        ensures grown { OnErr result (HasGrown queue.old queue.new) }
        ensures fits { FitsState self.old item (near_of self.old side item) }
    {
        match (self, kind) {
            (State::Window(window), _) => untaken(run_window(alloc, window, item, queue)),
            (State::Nothing, Kind::Select(steps)) => {
                untaken(run_select(alloc, &steps.steps, item, queue))
            }
            (State::Nothing, Kind::Project(columns)) => {
                untaken(run_project(alloc, columns.columns(), item, queue))
            }
            (State::Join(join), _) => untaken(join.run(alloc, side, item, queue)),
            (State::Groups(groups), _) => run_groups_item(groups, alloc, &item, queue),
            (State::Nothing | State::Root(_), _) => unreachable!(),
        }
    }
}

/// Takes an item of groups, and pushes the turn's outputs to the back of a queue.
///
/// # Errors
/// The number of rows that were taken, when out of memory. Exactly these were, and the queue has
/// only grown by rows of one instant.
pub(crate) fn run_groups_item(
    groups: &mut Group,
    alloc: Global,
    item: &Item,
    queue: &mut Queue,
) -> Result<(), usize>
    requires may { spec.RoomFor groups.old item.now }
    requires forward { IsForward (queue.old.entries
        ++ spec.out groups.old.group item.now (spec.near groups.old item.now)) }
    ensures next { OnOk result (groups.new ≡ spec.next groups.old item.now
        (spec.change groups.old.group item.now (spec.near groups.old item.now))) }
    ensures gained { OnOk result
        (HasGained (spec.out groups.old.group item.now (spec.near groups.old item.now))
        queue.old queue.new) }
    ensures err { IfErr result (λ taken. StopsAt taken (groups.new ≡ groups.old)
        (HasTaken (Groups groups.old) item.now taken (Groups groups.new))) }
    ensures grown { OnErr result (HasGrown queue.old queue.new) }
{
    match item {
        Item::Rows(_, batch) => groups.run_rows(batch),
        Item::Tick(at) => untaken(groups.run_tick(alloc, *at, queue)),
    }
}

fn run_window(
    alloc: Global,
    window: &mut Window,
    item: Item,
    queue: &mut Queue,
) -> Result<(), AllocError>
    requires may { window_turns.MayTake window.old item }
    requires forward { IsForward (queue.old.entries
        ++ window_turns.out item (window_turns.near window.old item)) }
    ensures next { OnOk result (window_turns.IsNext window.old item window.new) }
    ensures gained { OnOk result
        (HasGained (window_turns.out item (window_turns.near window.old item))
        queue.old queue.new) }
    ensures err { OnErr result (window.new ≡ window.old) }
    ensures grown { OnErr result (HasGrown queue.old queue.new) }
    ensures fits { FitsWindow item (nears.Window (window_turns.near window.old item)) }
{
    window.run(alloc, item, queue)
}

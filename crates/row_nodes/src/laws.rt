//! States what holds for every turn of Select and Project, by functions that do nothing. Each has
//! one law.
ghost use Rattle.std.specs.Prelude.{ℕ, Bool, List};
ghost use Rattle.values.specs.Row.{Row};
ghost use Rattle.values.specs.Condition.{Condition};
ghost use Rattle.lane_kernels.specs.declared.condition.Step.{Step};
ghost use Rattle.op_queue.specs.Paths.{rows_in};
ghost use Rattle.op_queue.specs.Signed.{Adds};
ghost use Rattle.op_queue.specs.declared.item.Item.TheVariants.{Rows};
ghost use Rattle.row_nodes.specs.Laws.{IsLawful, Mean, RowsLaw, project_value, select_value};
ghost use Rattle.row_nodes.specs.Project.{projected};
ghost use Rattle.row_nodes.specs.Select.{selected};

/// States the law of Select: what a turn emits, cut anywhere, turns one selection into the next. A
/// selection is the rows at which the condition is true, among all rows taken so far.
pub fn select_keeps_its_value()
    ensures law { (c : Condition) (steps : List Step) (t : ℕ) (xs : List (Bool × Row))
        (i : List Row) (i2 : List Row) (o : List Row)
        → Mean steps c → Adds i xs i2
        → RowsLaw (select_value c) i xs o (rows_in (selected steps (Rows t xs))) i2
        (select_value c i2) }
    ensures lawful { (c : Condition) → IsLawful (select_value c) }
{}

/// States the same law of Project, for the chosen columns of the rows taken so far.
pub fn project_keeps_its_value()
    ensures law { (columns : List ℕ) (t : ℕ) (xs : List (Bool × Row)) (i : List Row) (i2 : List Row)
        (o : List Row)
        → Adds i xs i2
        → RowsLaw (project_value columns) i xs o (rows_in (projected columns (Rows t xs))) i2
        (project_value columns i2) }
    ensures lawful { (columns : List ℕ) → IsLawful (project_value columns) }
{}

//! Turns a condition over the rows of one source into steps in postfix order.
ghost use Rattle.std.specs.Prelude.{◌≡◌, ◌≤◌, ◌++◌, ◌∷◌, [], ℕ, IfOk, OnOk};
ghost use Rattle.std.specs.Ordering.{int_cmp};
ghost use Rattle.values.specs.Condition as conditions;
ghost use Rattle.values.specs.Condition.{truth};
ghost use Rattle.values.specs.Row.{Row};
ghost use Rattle.values.specs.Resolved as resolved;
ghost use Rattle.lane_kernels.specs.Steps.{StepsFit, steps_truth};
ghost use Rattle.row_nodes.specs.Steps.{IsOfOneSource, IsOver, comparison_step, steps_of};
ghost use Rattle.row_nodes.specs.Steps.{truths_needed, turned};

use lane_kernels::{MAX_TRUTHS, Step};
use std::alloc::{AllocError, Global};
use values::{Compare, Condition, Operand};

/// Returns the steps of a condition, which `select` runs. The steps of the left side come before
/// those of the right side, then their And or Or.
///
/// Its columns are of source 0: rows between the operators of a plan are combinations of one row.
///
/// # Errors
/// `AllocError` when out of memory; then nothing has changed.
pub fn steps(alloc: Global, condition: &Condition) -> Result<Vec<Step>, AllocError>
    requires { IsOfOneSource (resolved.condition_of condition.now) }
    ensures value { IfOk result (λ ss. ss.items ≡ steps_of (resolved.condition_of condition.now)) }
    ensures means { IfOk result (λ ss. (row : Row)
        → steps_truth ss.items row ≡ truth (resolved.condition_of condition.now) (row ∷ [])) }
    ensures fits { IfOk result (λ ss. (w : ℕ) → IsOver w (resolved.condition_of condition.now)
        → truths_needed (resolved.condition_of condition.now) ≤ MAX_TRUTHS
        → StepsFit w 0 ss.items) }
{
    let mut steps = Vec::new(alloc);
    add(&mut steps, condition)?;
    Ok(steps)
}

/// Appends the steps of a condition.
fn add(steps: &mut Vec<Step>, condition: &Condition) -> Result<(), AllocError>
    ensures { OnOk result (steps.new.items
        ≡ steps.old.items ++ steps_of (resolved.condition_of condition.now)) }
{
    match condition {
        Condition::Compared(left, how, right) => {
            steps.push(comparison_step(*left, *how, *right))?;
        },
        Condition::Not(inner) => {
            add(steps, inner)?;
            steps.push(Step::Not)?;
        },
        Condition::And(left, right) => {
            add(steps, left)?;
            add(steps, right)?;
            steps.push(Step::And)?;
        },
        Condition::Or(left, right) => {
            add(steps, left)?;
            add(steps, right)?;
            steps.push(Step::Or)?;
        },
    }
    Ok(())
}

fn comparison_step(left: Operand, how: Compare, right: Operand) -> Step
    ensures { result ≡ comparison_step (resolved.operand_of left) how (resolved.operand_of right) }
{
    match (left, right) {
        (Operand::Field(a), Operand::Field(b)) => Step::Columns(a.column, how, b.column),
        (Operand::Field(a), Operand::Number(number)) => Step::Number(a.column, how, number),
        (Operand::Number(number), Operand::Field(b)) => Step::Number(b.column, turned(how), number),
        (Operand::Number(a), Operand::Number(b)) => Step::Known(passes(a, how, b)),
    }
}

/// Returns the comparison with its sides swapped.
fn turned(how: Compare) -> Compare
    ensures { result ≡ turned how }
{
    match how {
        Compare::Equals => Compare::Equals,
        Compare::Differs => Compare::Differs,
        Compare::Below => Compare::Above,
        Compare::AtMost => Compare::AtLeast,
        Compare::Above => Compare::Below,
        Compare::AtLeast => Compare::AtMost,
    }
}

/// Returns whether two numbers compare as asked.
fn passes(a: i64, how: Compare, b: i64) -> bool
    ensures { result ≡ conditions.passes how (int_cmp a b) }
{
    match how {
        Compare::Equals => a == b,
        Compare::Differs => a != b,
        Compare::Below => a < b,
        Compare::AtMost => a <= b,
        Compare::Above => a > b,
        Compare::AtLeast => a >= b,
    }
}

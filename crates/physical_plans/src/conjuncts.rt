//! The conditions of a Select as steps.
ghost use Rattle.std.specs.Prelude.{◌≡◌, ◌++◌, ◌∷◌, [], true, IfOk, OnOk};
ghost use Rattle.std.specs.List.{AllByRecursion};
ghost use Rattle.values.specs.Resolved.{condition_of};
ghost use Rattle.lane_kernels.specs.declared.condition.Step.TheVariants as step;
ghost use Rattle.names.specs.Views.{conditions_of};
ghost use Rattle.row_nodes.specs.Steps.{IsOfOneSource};
ghost use Rattle.physical_plans.specs.Conjuncts.{all_steps, further_steps};

use lane_kernels::Step;
use row_nodes::steps;
use std::alloc::{AllocError, Global};
use values::Condition;

/// Returns the steps of all conditions, joined from the left by And.
pub(crate) fn all_steps(alloc: Global, conditions: &[Condition]) -> Result<Vec<Step>, AllocError>
    requires { AllByRecursion (λ c. IsOfOneSource (condition_of c)) conditions.now }
    ensures { IfOk result (λ ss. ss.items ≡ all_steps (conditions_of conditions.now)) }
{
    match conditions {
        [] => known_true(alloc),
        [first, conditions @ ..] => first_and_further(alloc, first, conditions),
    }
}

#[tactic(auto, using(crate::proofs::ConjunctLemmas::steps_all))]
fn first_and_further(
    alloc: Global,
    first: &Condition,
    conditions: &[Condition],
) -> Result<Vec<Step>, AllocError>
    requires first { IsOfOneSource (condition_of first.now) }
    requires further { AllByRecursion (λ c. IsOfOneSource (condition_of c)) conditions.now }
    ensures { IfOk result (λ ss. ss.items
        ≡ all_steps (condition_of first.now ∷ conditions_of conditions.now)) }
{
    let mut all = steps(alloc, first)?;
    add_further(alloc, &mut all, conditions)?;
    Ok(all)
}

fn known_true(alloc: Global) -> Result<Vec<Step>, AllocError>
    ensures { IfOk result (λ ss. ss.items ≡ step.Known true ∷ []) }
{
    let mut all = Vec::new(alloc);
    all.push(Step::Known(true))?;
    Ok(all)
}

/// Appends the steps of further conditions, each followed by And.
fn add_further(
    alloc: Global,
    all: &mut Vec<Step>,
    conditions: &[Condition],
) -> Result<(), AllocError>
    requires { AllByRecursion (λ c. IsOfOneSource (condition_of c)) conditions.now }
    ensures { OnOk result (all.new.items
        ≡ all.old.items ++ further_steps (conditions_of conditions.now)) }
{
    match conditions {
        [] => Ok(()),
        [first, conditions @ ..] => {
            let more = steps(alloc, first)?;
            all.extend_from_slice(&more)?;
            all.push(Step::And)?;
            add_further(alloc, all, conditions)
        }
    }
}

//! Resolves the names of conditions.
ghost use Rattle.std.specs.Prelude.{◌≡◌, IfOk};
ghost use Rattle.std.specs.Option.{option_map};
ghost use Rattle.values.specs.Resolved.{operand_of, condition_of, where_of};
ghost use Rattle.cql_reader.specs.Views as syntax;
ghost use Rattle.names.specs.Resolved as spec;
ghost use Rattle.names.specs.Views.{tables_of};

use crate::matching::{Table, named_column};
use std::alloc::{AllocError, Global};
use values::{Condition, Operand};

/// Resolves the name of a side of a comparison, if it has one.
fn resolve_operand(tables: &[Table], operand: &cql_reader::WrittenOperand) -> Operand
    ensures { operand_of result
        ≡ spec.operand_of (tables_of tables.now) (syntax.operand_of operand.now) }
{
    match operand {
        cql_reader::WrittenOperand::Column(reference) => Operand::Field(named_column(
            tables, reference,
        )),
        cql_reader::WrittenOperand::Number(number) => Operand::Number(*number),
    }
}

/// Returns the condition with its names resolved.
fn resolve_condition(
    alloc: Global,
    tables: &[Table],
    condition: &cql_reader::WrittenCondition,
) -> Result<Condition, AllocError>
    ensures { IfOk result (λ c. condition_of c
        ≡ spec.condition_of (tables_of tables.now) (syntax.condition_of condition.now)) }
{
    match condition {
        cql_reader::WrittenCondition::Compared(a, how, b) => Ok(Condition::Compared(
            resolve_operand(tables, a),
            *how,
            resolve_operand(tables, b),
        )),
        cql_reader::WrittenCondition::Not(c) => Ok(Condition::Not(Box::new(
            alloc,
            resolve_condition(alloc, tables, c)?,
        )?)),
        cql_reader::WrittenCondition::And(c, d) => {
            let left = Box::new(alloc, resolve_condition(alloc, tables, c)?)?;
            let right = Box::new(alloc, resolve_condition(alloc, tables, d)?)?;
            Ok(Condition::And(left, right))
        }
        cql_reader::WrittenCondition::Or(c, d) => {
            let left = Box::new(alloc, resolve_condition(alloc, tables, c)?)?;
            let right = Box::new(alloc, resolve_condition(alloc, tables, d)?)?;
            Ok(Condition::Or(left, right))
        }
    }
}

/// Returns Where with its names resolved.
pub(crate) fn resolve_where(
    alloc: Global,
    tables: &[Table],
    condition: &Option<cql_reader::WrittenCondition>,
) -> Result<Option<Condition>, AllocError>
    ensures { IfOk result (λ o. where_of o
        ≡ option_map (spec.condition_of (tables_of tables.now)) (syntax.where_of condition.now)) }
{
    match condition {
        None => Ok(None),
        Some(condition) => Ok(Some(resolve_condition(alloc, tables, condition)?)),
    }
}

/// Copies the condition.
pub(crate) fn copy_condition(alloc: Global, condition: &Condition) -> Result<Condition, AllocError>
    ensures { IfOk result (λ c. condition_of c ≡ condition_of condition.now) }
{
    match condition {
        Condition::Compared(a, how, b) => Ok(Condition::Compared(*a, *how, *b)),
        Condition::Not(c) => Ok(Condition::Not(Box::new(alloc, copy_condition(alloc, c)?)?)),
        Condition::And(c, d) => {
            let left = Box::new(alloc, copy_condition(alloc, c)?)?;
            let right = Box::new(alloc, copy_condition(alloc, d)?)?;
            Ok(Condition::And(left, right))
        }
        Condition::Or(c, d) => {
            let left = Box::new(alloc, copy_condition(alloc, c)?)?;
            let right = Box::new(alloc, copy_condition(alloc, d)?)?;
            Ok(Condition::Or(left, right))
        }
    }
}

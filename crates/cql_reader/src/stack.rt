//! Keeps the condition as far as it is read.

ghost use Rattle.std.specs.Prelude.{◌≡◌, OnOk};
ghost use Rattle.cql_reader.specs.Views.{operand_of};
ghost use Rattle.cql_reader.specs.Grammar.{no_terms, sided, compared, negated, conjoined};
ghost use Rattle.cql_reader.specs.Grammar.{disjoined, standing_by};
ghost use Rattle.cql_reader.specs.Coded.{terms_of, standing_of};

use crate::query::{WrittenCondition, WrittenOperand};
use std::alloc::{AllocError, Global};
use values::Compare;

/// Holds the last two operands, the last comparison, and the conditions that are complete, the last
/// on top.
#[derive(Drop)]
pub struct Terms {
    /// Holds the operand before the last.
    pub left: WrittenOperand,
    /// Holds the last operand.
    pub right: WrittenOperand,
    /// Holds the last comparison.
    pub how: Compare,
    /// Holds the conditions that are complete, the last on top.
    pub standing: Vec<WrittenCondition>,
}

impl Terms {
    /// Makes the terms that hold before the first term.
    pub fn new(alloc: Global) -> Terms
        ensures { terms_of result ≡ no_terms }
    {
        Terms {
            left: WrittenOperand::Number(0),
            right: WrittenOperand::Number(0),
            how: Compare::Equals,
            standing: Vec::new(alloc),
        }
    }

    /// Adds an operand.
    pub fn push(&mut self, operand: WrittenOperand)
        ensures { terms_of self.new ≡ sided (operand_of operand) (terms_of self.old) }
    {
        self.left = self.right;
        self.right = operand;
    }

    /// Compares the last two operands.
    ///
    /// # Errors
    /// `AllocError` when out of memory.
    pub fn compare(&mut self) -> Result<(), AllocError>
        ensures { OnOk result (terms_of self.new ≡ compared (terms_of self.old)) }
    {
        self.standing.push(WrittenCondition::Compared(self.left, self.how, self.right))?;
        Ok(())
    }

    /// Negates the last condition.
    ///
    /// # Errors
    /// `AllocError` when out of memory.
    pub fn negate(&mut self, alloc: Global) -> Result<(), AllocError>
        ensures { OnOk result (terms_of self.new ≡ standing_by negated (terms_of self.old)) }
    {
        negate(alloc, &mut self.standing)
    }

    /// Joins the last two conditions: both have to hold.
    ///
    /// # Errors
    /// `AllocError` when out of memory.
    pub fn conjoin(&mut self, alloc: Global) -> Result<(), AllocError>
        ensures { OnOk result (terms_of self.new ≡ standing_by conjoined (terms_of self.old)) }
    {
        conjoin(alloc, &mut self.standing)
    }

    /// Joins the last two conditions: one of them has to hold.
    ///
    /// # Errors
    /// `AllocError` when out of memory.
    pub fn disjoin(&mut self, alloc: Global) -> Result<(), AllocError>
        ensures { OnOk result (terms_of self.new ≡ standing_by disjoined (terms_of self.old)) }
    {
        disjoin(alloc, &mut self.standing)
    }
}

/// Negates the last condition, if there is one.
fn negate(alloc: Global, standing: &mut Vec<WrittenCondition>) -> Result<(), AllocError>
    ensures { OnOk result (standing_of standing.new.items
        ≡ negated (standing_of standing.old.items)) }
{
    match standing.pop() {
        None => Ok(()),
        Some(last) => {
            let last = Box::new(alloc, last)?;
            standing.push(WrittenCondition::Not(last))?;
            Ok(())
        }
    }
}

/// Joins the last two conditions, in order, by And; fewer than two stay as they are.
fn conjoin(alloc: Global, standing: &mut Vec<WrittenCondition>) -> Result<(), AllocError>
    ensures { OnOk result (standing_of standing.new.items
        ≡ conjoined (standing_of standing.old.items)) }
{
    match standing.pop() {
        None => Ok(()),
        Some(last) => match standing.pop() {
            None => {
                standing.push(last)?;
                Ok(())
            }
            Some(before) => {
                let left = Box::new(alloc, before)?;
                let right = Box::new(alloc, last)?;
                standing.push(WrittenCondition::And(left, right))?;
                Ok(())
            }
        },
    }
}

/// Joins the last two conditions, in order, by Or; fewer than two stay as they are.
fn disjoin(alloc: Global, standing: &mut Vec<WrittenCondition>) -> Result<(), AllocError>
    ensures { OnOk result (standing_of standing.new.items
        ≡ disjoined (standing_of standing.old.items)) }
{
    match standing.pop() {
        None => Ok(()),
        Some(last) => match standing.pop() {
            None => {
                standing.push(last)?;
                Ok(())
            }
            Some(before) => {
                let left = Box::new(alloc, before)?;
                let right = Box::new(alloc, last)?;
                standing.push(WrittenCondition::Or(left, right))?;
                Ok(())
            }
        },
    }
}

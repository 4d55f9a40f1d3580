//! The lines of conditionals.
ghost use Rattle.std.specs.Prelude.{◌≡◌};
ghost use Rattle.model_preprocessing.specs.ConditionalLines as spec;
ghost use Rattle.pp_directives.specs.Outcomes.{Does};
ghost use Rattle.pp_directives.specs.Tests.{test_of, Reached};

use crate::control::{fault, macro_name};
use crate::errors::PrepError;
use crate::rules::{NO_MACRO_NAME, NO_OPEN_CONDITIONAL};
use crate::unit::Unit;
use cake_base::NoMemory;
use model_preprocessing::directives::{Conditional, Group};
use pp_conditions::evaluate;
use pp_lines::{Conditionals, Part, else_group, group_where};
use std::alloc::Global;

/// What a conditional tests: an expression, that a macro is defined, or that none is.
#[derive(Clone, Copy)]
pub enum Test {
    Expression,
    Defined,
    Undefined,
}

/// Whether the expression on the line holds (ISO/IEC 9899:2024, 6.10.2).
fn expression_holds(alloc: Global, unit: &mut Unit, part: &Part) -> Result<bool, PrepError>
    ensures { Does (spec.expression_holds part.now unit.old) result (λ holds. (holds, unit.new)) unit.new.log }
{
    let at = unit.here(part.at);
    let line = unit.tokens_here(alloc, &part.tokens)?;
    let holds = evaluate(alloc, &unit.table, at, &line, &mut unit.work)?;
    Ok(holds)
}

/// Whether the name on the line is a macro.
fn name_is_defined(unit: &Unit, part: &Part) -> Result<bool, PrepError>
    ensures { Does (spec.name_is_defined part.now unit.now) result (λ holds. (holds, unit.now)) unit.now.log }
{
    match macro_name(&part.tokens) {
        Some(name) => Ok(unit.table.find(name).is_some()),
        None => Err(fault(unit.here(part.at), NO_MACRO_NAME)),
    }
}

/// Whether the name on the line is no macro.
fn name_is_undefined(unit: &Unit, part: &Part) -> Result<bool, PrepError>
    ensures { Does (spec.name_is_undefined part.now unit.now) result (λ holds. (holds, unit.now)) unit.now.log }
{
    match macro_name(&part.tokens) {
        Some(name) => Ok(unit.table.find(name).is_none()),
        None => Err(fault(unit.here(part.at), NO_MACRO_NAME)),
    }
}

/// Whether what a line tests holds.
fn holds(alloc: Global, unit: &mut Unit, part: &Part, test: Test) -> Result<bool, PrepError>
    ensures { Does (test_of test part.now unit.old) result (λ holds. (holds, unit.new)) unit.new.log }
{
    match test {
        Test::Expression => expression_holds(alloc, unit, part),
        Test::Defined => name_is_defined(unit, part),
        Test::Undefined => name_is_undefined(unit, part),
    }
}

/// `#if`, `#ifdef`, `#ifndef`.
pub fn begin(
    alloc: Global,
    unit: &mut Unit,
    part: &Part,
    test: Test,
    opened: &mut Conditionals,
) -> Result<(), PrepError>
    ensures { Does (spec.begins part.now (test_of test part.now) opened.old unit.old) result (λ _. (opened.new, unit.new)) unit.new.log }
{
    let at = unit.here(part.at);
    let group = if opened.is_translated() {
        group_where(holds(alloc, unit, part, test)?)
    } else {
        Group::Passed
    };
    opened.push(Conditional {
        at,
        group,
        last: false,
    })?;
    Ok(())
}

/// The innermost conditional, of which another line is met; P12 where there is none, or where `#else`
/// was seen.
fn innermost(unit: &Unit, part: &Part, opened: &Conditionals) -> Result<Conditional, PrepError>
    ensures { Reached unit.now part.now opened.now result }
{
    match opened.first() {
        Some(conditional) if !conditional.last => Ok(conditional),
        _ => Err(fault(unit.here(part.at), NO_OPEN_CONDITIONAL)),
    }
}

/// `#elif`, `#elifdef`, `#elifndef`.
pub fn go_on(
    alloc: Global,
    unit: &mut Unit,
    part: &Part,
    test: Test,
    opened: &mut Conditionals,
) -> Result<(), PrepError>
    ensures { Does (spec.goes_on part.now (test_of test part.now) opened.old unit.old) result (λ _. (opened.new, unit.new)) unit.new.log }
{
    let conditional = innermost(unit, part, opened)?;
    let group = match conditional.group {
        Group::Taken => Group::Passed,
        Group::Sought => group_where(holds(alloc, unit, part, test)?),
        Group::Passed => Group::Passed,
    };
    let _ = opened.pop();
    opened.push(Conditional {
        at: conditional.at,
        group,
        last: conditional.last,
    })?;
    Ok(())
}

/// `#else`.
pub fn else_line(unit: &Unit, part: &Part, opened: &mut Conditionals) -> Result<(), PrepError>
    ensures { Does (spec.else_line part.now opened.old unit.now) result (λ _. (opened.new, unit.now)) unit.now.log }
{
    let conditional = innermost(unit, part, opened)?;
    let _ = opened.pop();
    opened.push(Conditional {
        at: conditional.at,
        group: else_group(conditional.group),
        last: true,
    })?;
    Ok(())
}

/// `#endif`.
pub fn endif_line(unit: &Unit, part: &Part, opened: &mut Conditionals) -> Result<(), PrepError>
    ensures { Does (spec.endif_line part.now opened.old unit.now) result (λ _. (opened.new, unit.now)) unit.now.log }
{
    match opened.pop() {
        Some(_) => Ok(()),
        None => Err(fault(unit.here(part.at), NO_OPEN_CONDITIONAL)),
    }
}

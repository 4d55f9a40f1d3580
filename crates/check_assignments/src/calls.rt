//! Calls (ISO/IEC 9899:2024, 6.5.3.3).
ghost use Rattle.std.specs.Prelude.{◌≡◌, true, None, Ok, IsTrue, IfOk, IfErr};
ghost use Rattle.model_types.specs.Types as t;
ghost use Rattle.model_types.specs.Types.{form_of_type};
ghost use Rattle.model_core.specs.TypedExpr.{is_typed};
ghost use Rattle.model_core.specs.TypedScope as s;
ghost use Rattle.model_core.specs.Core as unit;
ghost use Rattle.model_checking.specs.CallRules as m;
ghost use Rattle.model_checking.specs.MadeCore.{used_fault};
ghost use Rattle.check_base.specs.Broken.{Broken};
ghost use Rattle.check_base.specs.Meanings.{meaning_of, operand_of, value_in};
ghost use Rattle.core_tree.specs.CoreTrees.{expr_tree};
ghost use Rattle.typed_rule_laws.specs.TypedMeanings.{is_typed_operand};

use crate::operands::{facts, read, refuse};
use crate::passed::given;
use c_types::{CType, Structs, TypeForm, is_complete};
use cake_base::{Fault, NoMemory, Place};
use check_base::{CheckError, Meaning, Operand, wants};
use check_types::{is_integer, pointed_to};
use check_values::{is_function_pointer, is_void, promoted_value, used_fault};
use core_tree::{CoreExpr, CoreExprForm, Mark};
use sqlite_items::Items;
use std::alloc::Global;

/// The type of what is called: what the value of an operand points to; of a value that is no pointer, its type without
/// qualifiers.
pub fn called_type(alloc: Global, function: &Operand) -> Result<CType, NoMemory>
    ensures { IfOk result (λ made. form_of_type made ≡ m.called_form (operand_of function.now)) }
{
    let value = facts(alloc, &function.value)?;
    pointed_to(alloc, &value.ty)
}

/// The parameters of a function type; none of another type.
pub fn parameters(called: &CType) -> &[CType]
    ensures { t.types result.now ≡ m.parameters_in (form_of_type called.now) }
{
    match called.form() {
        TypeForm::Function(_, parameters, _) => parameters.as_slice(),
        TypeForm::Void
        | TypeForm::Integer(_)
        | TypeForm::Enum(..)
        | TypeForm::Pointer(_)
        | TypeForm::Array(..)
        | TypeForm::Struct(_) => &[],
    }
}

fn is_variadic(called: &CType) -> bool
    ensures { result ≡ m.is_variadic_in (form_of_type called.now) }
{
    match called.form() {
        TypeForm::Function(_, _, is_variadic) => *is_variadic,
        TypeForm::Void
        | TypeForm::Integer(_)
        | TypeForm::Enum(..)
        | TypeForm::Pointer(_)
        | TypeForm::Array(..)
        | TypeForm::Struct(_) => false,
    }
}

/// Whether there are as many arguments as parameters, or more where the function is variadic.
#[tactic(auto, using(crate::proofs::CallLaws::counts))]
fn is_count(parameters: &[CType], is_variadic: bool, count: usize) -> bool
    ensures { result ≡ m.is_count (t.types parameters.now) is_variadic count }
{
    count == parameters.len() || is_variadic && count > parameters.len()
}

fn are_complete(structs: &Structs, parameters: &[CType]) -> bool
    ensures { result ≡ s.are_complete structs.now (t.types parameters.now) }
{
    for parameter in parameters {
        if !is_complete(structs, parameter) {
            return false;
        }
    }
    true
}

fn is_usable(structs: &Structs, ty: &CType) -> bool
    ensures { result ≡ s.is_usable structs.now ty.now }
{
    is_void(ty) || is_complete(structs, ty)
}

/// Whether what a call hands over and gives is complete.
fn call_is_usable(structs: &Structs, called: &CType) -> bool
    ensures { result ≡ s.call_is_usable structs.now (form_of_type called.now) }
{
    match called.form() {
        TypeForm::Function(given, parameters, _) => {
            is_usable(structs, given) && are_complete(structs, parameters.as_slice())
        }
        TypeForm::Void
        | TypeForm::Integer(_)
        | TypeForm::Enum(..)
        | TypeForm::Pointer(_)
        | TypeForm::Array(..)
        | TypeForm::Struct(_) => false,
    }
}

/// What a call breaks whatever its arguments are: at the first token of what is called C14, where it is no function, and
/// C22, where a parameter or the result isn't complete; at the `(` C15, where there are too few or too many arguments.
pub fn call_fault(
    alloc: Global,
    structs: &Structs,
    at: Place,
    function: &Operand,
    count: usize,
) -> Result<Option<Fault>, NoMemory>
    ensures { IfOk result (λ fault. fault ≡ m.call_fault structs.now at (operand_of function.now) count) }
{
    let value = facts(alloc, &function.value)?;
    if !is_function_pointer(&value.ty) {
        return Ok(wants(false, function.first, 14));
    }
    let called = pointed_to(alloc, &value.ty)?;
    if !call_is_usable(structs, &called) {
        return Ok(wants(false, function.first, 22));
    }
    let counts = is_count(parameters(&called), is_variadic(&called), count);
    Ok(wants(counts, at, 15))
}

/// An argument behind the parameters, promoted; C21 or C22 at its first token, where it has no value.
#[tactic(auto, using(crate::proofs::CallLaws::used_has_value))]
fn extra_argument(alloc: Global, structs: &Structs, value: Operand) -> Result<CoreExpr, CheckError>
    requires { is_typed_operand structs.now (value_in value.value) ≡ true }
    ensures ok { IfOk result (λ made. m.argument structs.now t.no_types (operand_of value) ≡ Ok (expr_tree made)) }
    ensures err { IfErr result (λ e. Broken e (m.argument structs.now t.no_types (operand_of value))) }
{
    refuse(used_fault(structs, &value))?;
    let made = read(alloc, value.value)?;
    if is_integer(made.ty()) {
        let made = promoted_value(alloc, made)?;
        Ok(made)
    } else {
        Ok(made)
    }
}

/// An argument for the first of these parameters, given as if by assignment; where there is none, promoted.
pub fn argument(
    alloc: Global,
    structs: &Structs,
    parameters: &[CType],
    value: Operand,
) -> Result<CoreExpr, CheckError>
    requires { is_typed_operand structs.now (value_in value.value) ≡ true }
    ensures ok { IfOk result (λ made. m.argument structs.now (t.types parameters.now) (operand_of value) ≡ Ok (expr_tree made)) }
    ensures err { IfErr result (λ e. Broken e (m.argument structs.now (t.types parameters.now) (operand_of value))) }
{
    match parameters.split_first() {
        None => extra_argument(alloc, structs, value),
        Some((ty, _)) => given(alloc, structs, ty, value),
    }
}

/// The parameters of the arguments behind.
pub fn behind(parameters: &[CType]) -> &[CType]
    ensures { t.types result.now ≡ m.behind (t.types parameters.now) }
{
    match parameters.split_first() {
        None => parameters,
        Some((_, others)) => others,
    }
}

/// A call that breaks nothing, of arguments that were given to the parameters. On refusal all is dropped.
#[tactic(auto, using(crate::proofs::CallLaws::called_has_value))]
pub fn call(
    alloc: Global,
    mark: Mark,
    function: Operand,
    arguments: Items<CoreExpr>,
) -> Result<Meaning, NoMemory>
    requires { IsTrue (is_typed (unit.Call (value_in function.value) (unit.exprs arguments) mark)) }
    ensures { IfOk result (λ made. meaning_of made ≡ m.call mark (operand_of function) (unit.exprs arguments)) }
{
    let function = read(alloc, function.value)?;
    let value = CoreExpr::new(
        alloc,
        CoreExprForm::Call {
            function,
            arguments,
            mark,
        },
    )?;
    Ok(Meaning::Value(value))
}

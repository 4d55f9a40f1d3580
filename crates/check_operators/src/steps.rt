//! `++` and `--` (ISO/IEC 9899:2024, 6.5.3.5, 6.5.4.2), and what may be changed (6.3.3.1).
ghost use Rattle.std.specs.Prelude.{◌≡◌, true, None, Option, ℤ, Ok, IfOk, IfErr, if◌then◌else◌};
ghost use Rattle.model_types.specs.Types.{form_of_type};
ghost use Rattle.model_core.specs.CoreTypes as t;
ghost use Rattle.model_core.specs.TypedParts as p;
ghost use Rattle.model_core.specs.TypedExpr.{object_form};
ghost use Rattle.model_core.specs.Core as unit;
ghost use Rattle.model_checking.specs.Faults as f;
ghost use Rattle.model_checking.specs.Meanings.{a_place, a_value};
ghost use Rattle.model_checking.specs.MadeCore as c;
ghost use Rattle.model_checking.specs.UnaryRules as m;
ghost use Rattle.check_base.specs.Broken.{Broken};
ghost use Rattle.check_base.specs.Meanings.{meaning_of};
ghost use Rattle.core_tree.specs.CoreTrees.{lvalue_tree};

use crate::constness::is_const_somewhere;
use crate::faults::{moved_fault, or_fault};
use c_types::{Basic, CType, Structs, TypeForm, common, is_complete};
use cake_base::{Fault, NoMemory, Place};
use check_base::{CheckError, Meaning, constraint, wants};
use check_types::{basic_of, element, is_pointer, plain, pointer_to, unqualified};
use check_values::{is_array, is_scalar};
use core_tree::{CoreExpr, CoreExprForm, CoreLvalue, Mark};
use model_types::operators::{StepOp, StepSide};
use std::alloc::Global;

/// Whether what an expression is may be changed: an object of a complete type that is no array, and neither `const`
/// nor has a member at any depth that is.
pub fn is_modifiable(structs: &Structs, meaning: &Meaning) -> bool
    ensures { result ≡ m.is_modifiable structs.now (meaning_of meaning.now) }
{
    match meaning {
        Meaning::Place { object, .. } => {
            let ty = object.ty();
            !is_array(ty) && is_complete(structs, ty) && !is_const_somewhere(structs, ty)
        }
        Meaning::Value(_) => false,
        Meaning::Function { .. } => false,
        Meaning::Target(_) => false,
    }
}

/// The type of the value of an object.
#[tactic(auto, using(crate::proofs::StepLaws::known_type))]
fn object_value_type(
    alloc: Global,
    object: &CoreLvalue,
    known: Option<i128>,
) -> Result<CType, NoMemory>
    ensures { IfOk result (λ made. made ≡ t.type_of (c.object_value (lvalue_tree object.now) known)) }
{
    match known {
        None => {
            if is_array(object.ty()) {
                let first = element(alloc, object.ty())?;
                pointer_to(alloc, &first)
            } else {
                unqualified(alloc, object.ty())
            }
        }
        Some(_) => unqualified(alloc, object.ty()),
    }
}

/// The type of the value of what an expression is.
fn value_type(alloc: Global, meaning: &Meaning) -> Result<CType, NoMemory>
    ensures { IfOk result (λ made. made ≡ t.type_of (c.value_of (meaning_of meaning.now))) }
{
    match meaning {
        Meaning::Place { object, known } => object_value_type(alloc, object, *known),
        Meaning::Value(value) => value.ty().copy(alloc),
        Meaning::Function { ty, .. } => pointer_to(alloc, ty),
        Meaning::Target(pointer) => pointer.ty().copy(alloc),
    }
}

/// What a step breaks, the former of the places of the operator and of the operand first.
fn step_fault(
    alloc: Global,
    structs: &Structs,
    side: StepSide,
    at: Place,
    first: Place,
    meaning: &Meaning,
) -> Result<Option<Fault>, NoMemory>
    ensures { IfOk result (λ fault. fault ≡ m.step_fault structs.now side at first (meaning_of meaning.now)) }
{
    let ty = value_type(alloc, meaning)?;
    let operator = or_fault(
        wants(is_scalar(&ty), at, 9),
        wants(is_modifiable(structs, meaning), at, 10),
    );
    let moved = moved_fault(structs, &ty, first);
    match side {
        StepSide::Prefix => Ok(or_fault(operator, moved)),
        StepSide::Postfix => Ok(or_fault(moved, operator)),
    }
}

/// The type in which 1 is added: that of the pointer, or that of a sum with an `int`.
fn step_type(alloc: Global, object: &CoreLvalue) -> Result<CType, NoMemory>
    ensures { IfOk result (λ made. made ≡ m.step_type (lvalue_tree object.now)) }
{
    let ty = object.ty();
    if is_pointer(ty) {
        unqualified(alloc, ty)
    } else {
        let basic = common(basic_of(ty), Basic::Int);
        plain(alloc, TypeForm::Integer(basic))
    }
}

fn step_value(
    alloc: Global,
    op: StepOp,
    side: StepSide,
    mark: Mark,
    object: CoreLvalue,
) -> Result<Meaning, NoMemory>
    requires assigned { p.may_be_assigned (t.object_type (lvalue_tree object)) ≡ true }
    requires steps { p.step_fits (form_of_type (m.step_type (lvalue_tree object))) (object_form (lvalue_tree object)) ≡ true }
    ensures { IfOk result (λ made. meaning_of made ≡ a_value (unit.Step op side (m.step_type (lvalue_tree object)) (lvalue_tree object) mark)) }
{
    let _typed = object.form();
    let ty = step_type(alloc, &object)?;
    let value = CoreExpr::new(
        alloc,
        CoreExprForm::Step {
            op,
            side,
            ty,
            object,
            mark,
        },
    )?;
    Ok(Meaning::Value(value))
}

/// A step that breaks nothing.
#[tactic(auto, using(crate::proofs::StepLaws::step_is_assigned, crate::proofs::StepLaws::step_is_fit))]
fn stepped(
    alloc: Global,
    structs: &Structs,
    op: StepOp,
    side: StepSide,
    mark: Mark,
    first: Place,
    meaning: Meaning,
) -> Result<Meaning, CheckError>
    requires { m.step_fault structs.now side mark.at first (meaning_of meaning) ≡ None }
    ensures ok { IfOk result (λ made. m.step structs.now op side mark first (meaning_of meaning) ≡ Ok (meaning_of made)) }
    ensures err { IfErr result (λ e. Broken e (m.step structs.now op side mark first (meaning_of meaning))) }
{
    match meaning {
        Meaning::Place { object, .. } => Ok(step_value(alloc, op, side, mark, object)?),
        Meaning::Value(value) => {
            drop(value);
            Err(CheckError::Fault(constraint(mark.at, 10)))
        }
        Meaning::Function { ty, .. } => {
            drop(ty);
            Err(CheckError::Fault(constraint(mark.at, 10)))
        }
        Meaning::Target(pointer) => {
            drop(pointer);
            Err(CheckError::Fault(constraint(mark.at, 10)))
        }
    }
}

/// `++` or `--`, with the first token of its operand. At the operator C09, where the operand is no integer and no
/// pointer, and C10, where it may not be changed; at the operand C12, where it is a pointer, but to no complete
/// object. On refusal the meaning is dropped.
pub fn step(
    alloc: Global,
    structs: &Structs,
    op: StepOp,
    side: StepSide,
    mark: Mark,
    first: Place,
    meaning: Meaning,
) -> Result<Meaning, CheckError>
    ensures ok { IfOk result (λ made. m.step structs.now op side mark first (meaning_of meaning) ≡ Ok (meaning_of made)) }
    ensures err { IfErr result (λ e. Broken e (m.step structs.now op side mark first (meaning_of meaning))) }
{
    match step_fault(alloc, structs, side, mark.at, first, &meaning) {
        Ok(None) => stepped(alloc, structs, op, side, mark, first, meaning),
        Ok(Some(fault)) => {
            drop(meaning);
            Err(CheckError::Fault(fault))
        }
        Err(NoMemory) => {
            drop(meaning);
            Err(CheckError::NoMemory)
        }
    }
}

//! The values of what expressions are (ISO/IEC 9899:2024, 6.3.3), and when there is none.
ghost use Rattle.std.specs.Prelude.{◌≡◌, true, false, None, IfOk, if◌then◌else◌};
ghost use Rattle.model_types.specs.Types.{form_of_type};
ghost use Rattle.model_types.specs.declared.marks.Origin.TheVariants.{Implied};
ghost use Rattle.model_core.specs.CoreTypes as t;
ghost use Rattle.model_core.specs.SameTypes as s;
ghost use Rattle.model_core.specs.TypedParts as p;
ghost use Rattle.model_core.specs.TypedExpr.{object_form};
ghost use Rattle.model_core.specs.SourceMarks.{lvalue_mark};
ghost use Rattle.model_core.specs.Core as unit;
ghost use Rattle.model_types.specs.Layout as l;
ghost use Rattle.model_checking.specs.Faults as f;
ghost use Rattle.model_checking.specs.Meanings.{a_place};
ghost use Rattle.model_checking.specs.MadeCore as m;
ghost use Rattle.check_base.specs.Meanings.{meaning_of, value_in, operand_of};
ghost use Rattle.check_values.specs.Readable.{is_readable};
ghost use Rattle.core_tree.specs.CoreTrees.{expr_tree, lvalue_tree};

use crate::types::{is_array, is_plain_void_pointer, is_storable, is_void};
use c_types::{CType, Structs, is_complete};
use cake_base::{Fault, NoMemory, Place};
use check_base::{Meaning, Operand, OperandValue, wants};
use check_types::{pointed_to, unqualified};
use core_tree::{CoreExpr, CoreExprForm, CoreLvalue, DeclId, Mark, Origin};
use std::alloc::Global;

#[tactic(auto, using(crate::proofs::ValueLaws::constant_is_typed))]
fn constant(alloc: Global, value: i128, ty: &CType, mark: Mark) -> Result<CoreExpr, NoMemory>
    requires { p.constant_fits value (form_of_type ty.now) ≡ true }
    ensures { IfOk result (λ made. expr_tree made ≡ m.constant value ty.now mark) }
{
    let ty = unqualified(alloc, ty)?;
    CoreExpr::new(alloc, CoreExprForm::Constant { value, ty, mark })
}

/// A null pointer that is no null pointer constant.
fn null_pointer(alloc: Global, value: i128, ty: &CType, mark: Mark) -> Result<CoreExpr, NoMemory>
    requires fits { p.constant_fits value (form_of_type ty.now) ≡ true }
    requires pointer { s.is_plain_void_pointer (form_of_type ty.now) ≡ true }
    ensures { IfOk result (λ made. expr_tree made ≡ unit.Convert Implied (t.unqualified ty.now) (m.constant value ty.now mark) mark) }
{
    let operand = constant(alloc, value, ty, mark)?;
    let _typed = operand.form();
    let ty = unqualified(alloc, ty)?;
    CoreExpr::new(
        alloc,
        CoreExprForm::Convert {
            origin: Origin::Implied,
            ty,
            operand,
            mark,
        },
    )
}

/// The value that a `constexpr` object is known to have.
fn known_value(alloc: Global, value: i128, ty: &CType, mark: Mark) -> Result<CoreExpr, NoMemory>
    requires { p.constant_fits value (form_of_type ty.now) ≡ true }
    ensures { IfOk result (λ made. expr_tree made ≡ m.known_value value ty.now mark) }
{
    if is_plain_void_pointer(ty) {
        null_pointer(alloc, value, ty, mark)
    } else {
        constant(alloc, value, ty, mark)
    }
}

/// The address of the first element of an array.
fn decayed(alloc: Global, object: CoreLvalue) -> Result<OperandValue, NoMemory>
    requires { p.is_array (object_form (lvalue_tree object)) ≡ true }
    ensures { IfOk result (λ made. value_in made ≡ unit.Address Implied (lvalue_tree object) (lvalue_mark (lvalue_tree object))) }
{
    let _typed = object.form();
    let mark = object.mark();
    let value = CoreExpr::new(
        alloc,
        CoreExprForm::Address {
            origin: Origin::Implied,
            object,
            mark,
        },
    )?;
    Ok(OperandValue::Read(value))
}

fn loaded(alloc: Global, object: CoreLvalue) -> Result<OperandValue, NoMemory>
    requires { p.is_storable (object_form (lvalue_tree object)) ≡ true }
    ensures { IfOk result (λ made. value_in made ≡ unit.Load (lvalue_tree object) (lvalue_mark (lvalue_tree object))) }
{
    let _typed = object.form();
    let mark = object.mark();
    let value = CoreExpr::new(alloc, CoreExprForm::Load { object, mark })?;
    Ok(OperandValue::Read(value))
}

/// The value of an object that is read when the program runs.
fn object_value(alloc: Global, object: CoreLvalue) -> Result<OperandValue, NoMemory>
    ensures { IfOk result (λ made. value_in made ≡ m.object_value (lvalue_tree object) None) }
{
    if is_array(object.ty()) {
        decayed(alloc, object)
    } else if is_storable(object.ty()) {
        loaded(alloc, object)
    } else {
        Ok(OperandValue::Unread(object))
    }
}

/// The address of a function.
fn function_value(
    alloc: Global,
    id: DeclId,
    ty: CType,
    by_name: bool,
    mark: Mark,
) -> Result<OperandValue, NoMemory>
    requires { p.is_function (form_of_type ty) ≡ true }
    ensures { IfOk result (λ made. value_in made ≡ unit.FunctionRef id.0 ty by_name mark) }
{
    let value = CoreExpr::new(
        alloc,
        CoreExprForm::FunctionRef {
            id,
            ty,
            by_name,
            mark,
        },
    )?;
    Ok(OperandValue::Read(value))
}

/// The value of an object that is known, or is read when the program runs.
fn place_value(
    alloc: Global,
    object: CoreLvalue,
    known: Option<i128>,
) -> Result<OperandValue, NoMemory>
    requires { is_readable (a_place (lvalue_tree object) known) ≡ true }
    ensures { IfOk result (λ made. value_in made ≡ m.object_value (lvalue_tree object) known) }
{
    match known {
        None => object_value(alloc, object),
        Some(value) => {
            let value = known_value(alloc, value, object.ty(), object.mark())?;
            Ok(OperandValue::Read(value))
        }
    }
}

/// The value of what an expression is: an array is the address of its first element, a function its address,
/// and any other object is loaded. On refusal the meaning is dropped.
pub fn value_of(alloc: Global, meaning: Meaning) -> Result<OperandValue, NoMemory>
    requires { is_readable (meaning_of meaning) ≡ true }
    ensures { IfOk result (λ made. value_in made ≡ m.value_of (meaning_of meaning)) }
{
    match meaning {
        Meaning::Place { object, known } => place_value(alloc, object, known),
        Meaning::Value(value) => Ok(OperandValue::Read(value)),
        Meaning::Function {
            id,
            ty,
            by_name,
            mark,
        } => function_value(alloc, id, ty, by_name, mark),
        Meaning::Target(pointer) => Ok(OperandValue::Read(pointer)),
    }
}

/// What an expression is as an operand, with its first token. On refusal the meaning is dropped.
pub fn operand(alloc: Global, first: Place, meaning: Meaning) -> Result<Operand, NoMemory>
    requires { is_readable (meaning_of meaning) ≡ true }
    ensures { IfOk result (λ made. operand_of made ≡ m.operand first (meaning_of meaning)) }
{
    let value = value_of(alloc, meaning)?;
    Ok(Operand { value, first })
}

/// The type of what an expression is, that of an array or function among them.
pub fn meaning_type(alloc: Global, meaning: &Meaning) -> Result<CType, NoMemory>
    ensures { IfOk result (λ made. made ≡ m.meaning_type (meaning_of meaning.now)) }
{
    match meaning {
        Meaning::Place { object, .. } => object.ty().copy(alloc),
        Meaning::Value(value) => value.ty().copy(alloc),
        Meaning::Function { ty, .. } => ty.copy(alloc),
        Meaning::Target(pointer) => pointed_to(alloc, pointer.ty()),
    }
}

/// C21, where an operand is of type `void`; C22, where it is of an incomplete structure.
#[tactic(auto, using(crate::proofs::ValueLaws::unqualified_void, crate::proofs::ValueLaws::unqualified_complete))]
pub fn used_fault(structs: &Structs, operand: &Operand) -> Option<Fault>
    ensures { result ≡ m.used_fault structs.now (operand_of operand.now) }
{
    match &operand.value {
        OperandValue::Read(value) => type_fault(structs, value.ty(), operand.first),
        OperandValue::Unread(object) => type_fault(structs, object.ty(), operand.first),
    }
}

fn type_fault(structs: &Structs, ty: &CType, first: Place) -> Option<Fault>
    ensures { result ≡ (if t.is_void ty.now then f.wants false first 21 else f.wants (l.is_complete structs.now ty.now) first 22) }
{
    if is_void(ty) {
        wants(false, first, 21)
    } else {
        wants(is_complete(structs, ty), first, 22)
    }
}

/// Whether an operand is an object that has no value.
fn is_valueless(structs: &Structs, value: &OperandValue) -> bool
    ensures { result ≡ m.is_valueless structs.now (value_in value.now) }
{
    match value {
        OperandValue::Read(value) => match value.form() {
            CoreExprForm::Load { object, .. } => !is_complete(structs, object.ty()),
            CoreExprForm::Constant { .. }
            | CoreExprForm::Address { .. }
            | CoreExprForm::FunctionRef { .. }
            | CoreExprForm::Unary { .. }
            | CoreExprForm::Binary { .. }
            | CoreExprForm::Logic { .. }
            | CoreExprForm::Choice { .. }
            | CoreExprForm::Convert { .. }
            | CoreExprForm::Call { .. }
            | CoreExprForm::Assign { .. }
            | CoreExprForm::Step { .. }
            | CoreExprForm::MemberValue { .. }
            | CoreExprForm::Comma { .. } => false,
        },
        OperandValue::Unread(object) => !is_complete(structs, object.ty()),
    }
}

/// C21 or C22, where an operand is an object that has no value.
pub fn unread_fault(structs: &Structs, operand: &Operand) -> Option<Fault>
    ensures { result ≡ m.unread_fault structs.now (operand_of operand.now) }
{
    if is_valueless(structs, &operand.value) {
        used_fault(structs, operand)
    } else {
        None
    }
}

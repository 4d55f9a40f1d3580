//! The types of the core's expressions and objects, from the types of their parts.
ghost use Rattle.std.specs.Prelude.{◌≡◌, IfOk, if◌then◌else◌};
ghost use Rattle.model_types.specs.Types.{form_of_type};
ghost use Rattle.model_core.specs.CoreTypes as m;
ghost use Rattle.core_tree.specs.CoreForms.{expr_of, lvalue_of};

use crate::core_exprs::{CoreExprForm, CoreLvalueForm};
use c_types::{CType, TypeForm, is_comparison};
use cake_base::NoMemory;
use check_types::{element, is_pointer, plain, pointed_to, pointer_to, unqualified};
use model_types::marks::Origin;
use model_types::numbers::{Basic, BinOp};
use model_types::operators::UnaryOp;
use std::alloc::Global;

/// What a function gives; of another type, itself without qualifiers.
fn result_of(alloc: Global, ty: &CType) -> Result<CType, NoMemory>
    ensures { IfOk result (λ made. made ≡ m.unqualified (m.result_of_form (form_of_type ty.now))) }
{
    match ty.form() {
        TypeForm::Function(result, _, _) => unqualified(alloc, result),
        TypeForm::Void
        | TypeForm::Integer(_)
        | TypeForm::Enum(_, _)
        | TypeForm::Pointer(_)
        | TypeForm::Array(_, _)
        | TypeForm::Struct(_) => unqualified(alloc, ty),
    }
}

fn called_type(alloc: Global, function: &CType) -> Result<CType, NoMemory>
    ensures { IfOk result (λ made. made ≡ m.called_type (form_of_type function.now)) }
{
    let called = pointed_to(alloc, function)?;
    result_of(alloc, &called)
}

fn address_type(alloc: Global, origin: Origin, ty: &CType) -> Result<CType, NoMemory>
    ensures { IfOk result (λ made. made ≡ m.address_type origin ty.now) }
{
    match origin {
        Origin::Written => pointer_to(alloc, ty),
        Origin::Implied => {
            let first = element(alloc, ty)?;
            pointer_to(alloc, &first)
        }
    }
}

fn unary_type(alloc: Global, op: UnaryOp, operand: &CType) -> Result<CType, NoMemory>
    ensures { IfOk result (λ made. made ≡ m.unary_type op operand.now) }
{
    match op {
        UnaryOp::Not => plain(alloc, TypeForm::Integer(Basic::Int)),
        UnaryOp::Minus | UnaryOp::Complement => operand.copy(alloc),
    }
}

/// The type of a sum, and of what is done in the type of its left operand.
fn sum_type(alloc: Global, left: &CType, right: &CType) -> Result<CType, NoMemory>
    ensures { IfOk result (λ made. made ≡ (if m.is_pointer (form_of_type right.now) then right.now else left.now)) }
{
    if is_pointer(right) {
        right.copy(alloc)
    } else {
        left.copy(alloc)
    }
}

fn difference_type(alloc: Global, left: &CType, right: &CType) -> Result<CType, NoMemory>
    ensures { IfOk result (λ made. made ≡ m.operated BinOp.Sub left.now right.now) }
{
    if is_pointer(left) && is_pointer(right) {
        plain(alloc, TypeForm::Integer(Basic::Long))
    } else {
        left.copy(alloc)
    }
}

fn binary_type(alloc: Global, op: BinOp, left: &CType, right: &CType) -> Result<CType, NoMemory>
    ensures { IfOk result (λ made. made ≡ m.binary_type op left.now right.now) }
{
    if is_comparison(op) {
        plain(alloc, TypeForm::Integer(Basic::Int))
    } else if op == BinOp::Sub {
        difference_type(alloc, left, right)
    } else {
        sum_type(alloc, left, right)
    }
}

/// The type of the value of an expression of a form.
pub fn expr_type(alloc: Global, form: &CoreExprForm) -> Result<CType, NoMemory>
    ensures { IfOk result (λ made. made ≡ m.type_of (expr_of form.now)) }
{
    match form {
        CoreExprForm::Constant { ty, .. } => ty.copy(alloc),
        CoreExprForm::Load { object, .. } => unqualified(alloc, object.ty()),
        CoreExprForm::Address { origin, object, .. } => address_type(alloc, *origin, object.ty()),
        CoreExprForm::FunctionRef { ty, .. } => pointer_to(alloc, ty),
        CoreExprForm::Unary { op, operand, .. } => unary_type(alloc, *op, operand.ty()),
        CoreExprForm::Binary {
            op,
            left,
            right,
            ..
        } => binary_type(alloc, *op, left.ty(), right.ty()),
        CoreExprForm::Logic { .. } => plain(alloc, TypeForm::Integer(Basic::Int)),
        CoreExprForm::Choice { first, .. } => first.ty().copy(alloc),
        CoreExprForm::Convert { ty, .. } => ty.copy(alloc),
        CoreExprForm::Call { function, .. } => called_type(alloc, function.ty()),
        CoreExprForm::Assign { object, .. } => unqualified(alloc, object.ty()),
        CoreExprForm::Step { object, .. } => unqualified(alloc, object.ty()),
        CoreExprForm::MemberValue { ty, .. } => unqualified(alloc, ty),
        CoreExprForm::Comma { second, .. } => second.ty().copy(alloc),
    }
}

/// The type of the object of an lvalue of a form, with its qualifiers.
pub fn lvalue_type(alloc: Global, form: &CoreLvalueForm) -> Result<CType, NoMemory>
    ensures { IfOk result (λ made. made ≡ m.object_type (lvalue_of form.now)) }
{
    match form {
        CoreLvalueForm::Object { ty, .. } => ty.copy(alloc),
        CoreLvalueForm::Deref { pointer, .. } => pointed_to(alloc, pointer.ty()),
        CoreLvalueForm::Index {
            is_second,
            first,
            second,
            ..
        } => pointed_to(alloc, if *is_second { second.ty() } else { first.ty() }),
        CoreLvalueForm::Field { ty, .. } => ty.copy(alloc),
        CoreLvalueForm::Arrow { ty, .. } => ty.copy(alloc),
        CoreLvalueForm::Literal { ty, .. } => ty.copy(alloc),
    }
}

//! Which types go together: in conversions (ISO/IEC 9899:2024, 6.3.2, 6.5.5, 6.5.17.2) and as operands (6.5.6 to
//! 6.5.13).
ghost use Rattle.std.specs.Prelude.{◌≡◌, Bool, IfOk};
ghost use Rattle.model_types.specs.declared.numbers.BinOp.TheVariants.{Add, Sub, Less, Equal};
ghost use Rattle.model_types.specs.Types.{form_of_type, Integer};
ghost use Rattle.model_core.specs.SameTypes as s;
ghost use Rattle.model_core.specs.TypedParts as p;

use crate::types::is_void;
use c_types::{Basic, BinOp, CType, Structs, TypeForm, compatible, promoted};
use cake_base::NoMemory;
use check_types::{is_integer, is_pointer, same_value_type, unqualified};
use std::alloc::Global;

/// Whether a type is a function type.
pub fn is_function(ty: &CType) -> bool
    ensures { result ≡ p.is_function (form_of_type ty.now) }
{
    matches!(ty.form(), TypeForm::Function(..))
}

/// Whether a type is an integer type or a pointer.
pub fn is_scalar(ty: &CType) -> bool
    ensures { result ≡ p.is_scalar (form_of_type ty.now) }
{
    is_integer(ty) || is_pointer(ty)
}

/// Whether a type is a pointer to an object or to `void`.
pub fn is_object_pointer(ty: &CType) -> bool
    ensures { result ≡ p.is_object_pointer (form_of_type ty.now) }
{
    match ty.form() {
        TypeForm::Pointer(to) => !is_function(to),
        TypeForm::Void
        | TypeForm::Integer(_)
        | TypeForm::Enum(..)
        | TypeForm::Array(..)
        | TypeForm::Struct(_)
        | TypeForm::Function(..) => false,
    }
}

/// Whether a type is a pointer to a function.
pub fn is_function_pointer(ty: &CType) -> bool
    ensures { result ≡ p.is_function_pointer (form_of_type ty.now) }
{
    match ty.form() {
        TypeForm::Pointer(to) => is_function(to),
        TypeForm::Void
        | TypeForm::Integer(_)
        | TypeForm::Enum(..)
        | TypeForm::Array(..)
        | TypeForm::Struct(_)
        | TypeForm::Function(..) => false,
    }
}

/// Whether a type is a pointer to `void`, whatever the qualifiers of that.
#[tactic(auto, using(crate::proofs::TypeTests::void_pointer_by_target))]
pub fn is_void_pointer(ty: &CType) -> bool
    ensures { result ≡ s.is_void_pointer (form_of_type ty.now) }
{
    match ty.form() {
        TypeForm::Pointer(to) => is_void(to),
        TypeForm::Void
        | TypeForm::Integer(_)
        | TypeForm::Enum(..)
        | TypeForm::Array(..)
        | TypeForm::Struct(_)
        | TypeForm::Function(..) => false,
    }
}

/// Whether a type is an integer type that the integer promotions leave as it is, no enumeration.
pub fn is_promoted(ty: &CType) -> bool
    ensures { result ≡ p.is_promoted (form_of_type ty.now) }
{
    match ty.form() {
        TypeForm::Integer(basic) => promoted(*basic) == *basic,
        TypeForm::Void
        | TypeForm::Enum(..)
        | TypeForm::Pointer(_)
        | TypeForm::Array(..)
        | TypeForm::Struct(_)
        | TypeForm::Function(..) => false,
    }
}

/// Whether two types are pointers to compatible types, the qualifiers of these themselves aside.
pub fn alike_pointers(alloc: Global, a: &CType, b: &CType) -> Result<bool, NoMemory>
    ensures { IfOk result (λ alike. alike ≡ p.alike_pointers (form_of_type a.now) (form_of_type b.now)) }
{
    match (a.form(), b.form()) {
        (TypeForm::Pointer(t), TypeForm::Pointer(u)) => {
            let t = unqualified(alloc, t)?;
            let u = unqualified(alloc, u)?;
            // the comparison asks no structure for its members
            let structs = Structs::new(alloc);
            Ok(compatible(&structs, &t, &u))
        }
        _ => Ok(false),
    }
}

/// Whether two types are pointers that can be equal: to compatible types, or one to `void`.
pub fn comparable(alloc: Global, a: &CType, b: &CType) -> Result<bool, NoMemory>
    ensures { IfOk result (λ fit. fit ≡ p.comparable (form_of_type a.now) (form_of_type b.now)) }
{
    let alike = alike_pointers(alloc, a, b)?;
    Ok(
        alike
            || is_object_pointer(a)
                && is_object_pointer(b)
                && (is_void_pointer(a) || is_void_pointer(b)),
    )
}

/// Whether two types are pointers that have an order: to compatible types of objects, or to `void` (6.5.9).
pub fn ordered_pointers(alloc: Global, a: &CType, b: &CType) -> Result<bool, NoMemory>
    ensures { IfOk result (λ fit. fit ≡ p.ordered_pointers (form_of_type a.now) (form_of_type b.now)) }
{
    let alike = alike_pointers(alloc, a, b)?;
    Ok(is_object_pointer(a) && alike)
}

fn integer_takes(basic: Basic, from: &CType) -> bool
    ensures { (is_null : Bool) → result ≡ p.converts is_null (form_of_type from.now) (Integer basic) }
{
    match basic {
        Basic::Bool => is_scalar(from),
        Basic::Char => is_integer(from),
        Basic::SignedChar => is_integer(from),
        Basic::UnsignedChar => is_integer(from),
        Basic::Short => is_integer(from),
        Basic::UnsignedShort => is_integer(from),
        Basic::Int => is_integer(from),
        Basic::Unsigned => is_integer(from),
        Basic::Long => is_integer(from),
        Basic::UnsignedLong => is_integer(from),
        Basic::LongLong => is_integer(from),
        Basic::UnsignedLongLong => is_integer(from),
    }
}

/// Whether a cast or an assignment may convert a value of a type, and whether it is a null pointer constant, to
/// another type. Of the types of integers `bool` alone takes a pointer.
pub fn converts(is_null: bool, from: &CType, to: &CType) -> bool
    ensures { result ≡ p.converts is_null (form_of_type from.now) (form_of_type to.now) }
{
    match to.form() {
        TypeForm::Void => true,
        TypeForm::Integer(basic) => integer_takes(*basic, from),
        TypeForm::Enum(..) => is_integer(from),
        TypeForm::Pointer(_) => {
            is_null
                || is_object_pointer(from) && is_object_pointer(to)
                || is_function_pointer(from) && is_function_pointer(to)
        }
        TypeForm::Struct(_) => same_value_type(from, to),
        TypeForm::Array(..) => false,
        TypeForm::Function(..) => false,
    }
}

/// Whether a conversion may be implied that a cast may make: pointers are to types that are compatible apart from
/// their own qualifiers, or one of them is to `void`; and there is none to `void`.
pub fn implied_fits(
    alloc: Global,
    is_null: bool,
    from: &CType,
    to: &CType,
) -> Result<bool, NoMemory>
    ensures { IfOk result (λ fit. fit ≡ p.implied_fits is_null (form_of_type from.now) (form_of_type to.now)) }
{
    match to.form() {
        TypeForm::Pointer(_) => {
            let fit = comparable(alloc, from, to)?;
            Ok(is_null || fit)
        }
        TypeForm::Void => Ok(false),
        TypeForm::Integer(_) => Ok(true),
        TypeForm::Enum(..) => Ok(true),
        TypeForm::Array(..) => Ok(true),
        TypeForm::Struct(_) => Ok(true),
        TypeForm::Function(..) => Ok(true),
    }
}

fn same_promoted(a: &CType, b: &CType) -> bool
    ensures { result ≡ p.same_promoted (form_of_type a.now) (form_of_type b.now) }
{
    is_promoted(a) && same_value_type(a, b)
}

fn sum_takes(a: &CType, b: &CType) -> bool
    ensures { result ≡ p.takes Add (form_of_type a.now) (form_of_type b.now) }
{
    same_promoted(a, b)
        || is_object_pointer(a) && is_integer(b)
        || is_integer(a) && is_object_pointer(b)
}

fn difference_takes(alloc: Global, a: &CType, b: &CType) -> Result<bool, NoMemory>
    ensures { IfOk result (λ fit. fit ≡ p.takes Sub (form_of_type a.now) (form_of_type b.now)) }
{
    let alike = alike_pointers(alloc, a, b)?;
    Ok(
        same_promoted(a, b)
            || is_object_pointer(a) && is_integer(b)
            || is_object_pointer(a) && alike,
    )
}

fn order_takes(alloc: Global, a: &CType, b: &CType) -> Result<bool, NoMemory>
    ensures { IfOk result (λ fit. fit ≡ p.takes Less (form_of_type a.now) (form_of_type b.now)) }
{
    let ordered = ordered_pointers(alloc, a, b)?;
    Ok(same_promoted(a, b) || ordered)
}

fn equality_takes(alloc: Global, a: &CType, b: &CType) -> Result<bool, NoMemory>
    ensures { IfOk result (λ fit. fit ≡ p.takes Equal (form_of_type a.now) (form_of_type b.now)) }
{
    let comparable = comparable(alloc, a, b)?;
    Ok(same_promoted(a, b) || comparable)
}

/// Whether a binary operator takes operands of these types, after the conversions that it implies.
pub fn takes(alloc: Global, op: BinOp, a: &CType, b: &CType) -> Result<bool, NoMemory>
    ensures { IfOk result (λ fit. fit ≡ p.takes op (form_of_type a.now) (form_of_type b.now)) }
{
    match op {
        BinOp::Add => Ok(sum_takes(a, b)),
        BinOp::Sub => difference_takes(alloc, a, b),
        BinOp::Less => order_takes(alloc, a, b),
        BinOp::Greater => order_takes(alloc, a, b),
        BinOp::LessEqual => order_takes(alloc, a, b),
        BinOp::GreaterEqual => order_takes(alloc, a, b),
        BinOp::Equal => equality_takes(alloc, a, b),
        BinOp::NotEqual => equality_takes(alloc, a, b),
        BinOp::ShiftLeft => Ok(is_promoted(a) && is_promoted(b)),
        BinOp::ShiftRight => Ok(is_promoted(a) && is_promoted(b)),
        BinOp::Mul => Ok(same_promoted(a, b)),
        BinOp::Div => Ok(same_promoted(a, b)),
        BinOp::Rem => Ok(same_promoted(a, b)),
        BinOp::BitAnd => Ok(same_promoted(a, b)),
        BinOp::BitXor => Ok(same_promoted(a, b)),
        BinOp::BitOr => Ok(same_promoted(a, b)),
    }
}

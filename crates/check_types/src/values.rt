//! Types that come of others.
ghost use Rattle.std.specs.Prelude.{◌≡◌, IfOk};
ghost use Rattle.model_types.specs.Types as t;
ghost use Rattle.model_types.specs.Conversions as c;
ghost use Rattle.model_core.specs.CoreTypes as m;
ghost use Rattle.model_core.specs.SameTypes as s;
ghost use Rattle.c_types.specs.Forms.{form_of};

use c_types::{CType, Quals, TypeForm, common};
use cake_base::NoMemory;
use model_types::numbers::Basic;
use std::alloc::Global;

const NO_QUALS: Quals = Quals {
    has_const: false,
    has_restrict: false,
    has_owner: false,
    has_view: false,
    has_opt: false,
};

/// The unqualified type of a form. On refusal the form is dropped.
pub fn plain(alloc: Global, form: TypeForm) -> Result<CType, NoMemory>
    ensures { IfOk result (λ made. made ≡ m.plain (form_of form)) }
{
    CType::new(alloc, form, NO_QUALS)
}

/// The unqualified version of a type, which its values have (ISO/IEC 9899:2024, 6.7.4.1). The qualifiers of an
/// array are those of its elements.
pub fn unqualified(alloc: Global, ty: &CType) -> Result<CType, NoMemory>
    ensures { IfOk result (λ made. made ≡ m.unqualified ty.now) }
{
    match ty.form() {
        TypeForm::Array(of, count) => {
            let of = unqualified(alloc, of)?;
            plain(alloc, TypeForm::Array(of, *count))
        }
        TypeForm::Void
        | TypeForm::Integer(_)
        | TypeForm::Enum(_, _)
        | TypeForm::Pointer(_)
        | TypeForm::Struct(_)
        | TypeForm::Function(_, _, _) => ty.with_quals(alloc, NO_QUALS),
    }
}

/// The unqualified pointer to a type.
pub fn pointer_to(alloc: Global, ty: &CType) -> Result<CType, NoMemory>
    ensures { IfOk result (λ made. made ≡ m.pointer_to ty.now) }
{
    let to = ty.copy(alloc)?;
    plain(alloc, TypeForm::Pointer(to))
}

/// Whether a type is a pointer.
pub fn is_pointer(ty: &CType) -> bool
    ensures { result ≡ m.is_pointer (t.form_of_type ty.now) }
{
    matches!(ty.form(), TypeForm::Pointer(_))
}

/// What a pointer points to, with its qualifiers; of another type, itself without qualifiers.
pub fn pointed_to(alloc: Global, ty: &CType) -> Result<CType, NoMemory>
    ensures { IfOk result (λ made. made ≡ m.pointee (t.form_of_type ty.now)) }
{
    match ty.form() {
        TypeForm::Pointer(to) => to.copy(alloc),
        TypeForm::Void
        | TypeForm::Integer(_)
        | TypeForm::Enum(_, _)
        | TypeForm::Array(_, _)
        | TypeForm::Struct(_)
        | TypeForm::Function(_, _, _) => ty.with_quals(alloc, NO_QUALS),
    }
}

/// What an array has as elements; of another type, itself.
pub fn element(alloc: Global, ty: &CType) -> Result<CType, NoMemory>
    ensures { IfOk result (λ made. made ≡ m.element ty.now) }
{
    match ty.form() {
        TypeForm::Array(of, _) => of.copy(alloc),
        TypeForm::Void
        | TypeForm::Integer(_)
        | TypeForm::Enum(_, _)
        | TypeForm::Pointer(_)
        | TypeForm::Struct(_)
        | TypeForm::Function(_, _, _) => ty.copy(alloc),
    }
}

/// Whether a type is an integer type or an enumeration (6.2.5).
pub fn is_integer(ty: &CType) -> bool
    ensures { result ≡ s.is_integer (t.form_of_type ty.now) }
{
    matches!(ty.form(), TypeForm::Integer(_) | TypeForm::Enum(_, _))
}

/// The integer type of a type, of an enumeration the underlying one; int, where it is none.
pub fn basic_of(ty: &CType) -> Basic
    ensures { result ≡ m.basic_of (t.form_of_type ty.now) }
{
    match ty.form() {
        TypeForm::Integer(basic) => *basic,
        TypeForm::Enum(basic, _) => *basic,
        TypeForm::Void
        | TypeForm::Pointer(_)
        | TypeForm::Array(_, _)
        | TypeForm::Struct(_)
        | TypeForm::Function(_, _, _) => Basic::Int,
    }
}

/// The type of an integer of a type after the integer promotions (6.3.2.1).
pub fn promoted(alloc: Global, ty: &CType) -> Result<CType, NoMemory>
    ensures { IfOk result (λ made. made ≡ m.plain (t.Integer (c.promoted (m.basic_of (t.form_of_type ty.now))))) }
{
    plain(alloc, TypeForm::Integer(c_types::promoted(basic_of(ty))))
}

/// The common type of two integers of these types after the usual arithmetic conversions (6.3.2.8).
pub fn usual(alloc: Global, a: &CType, b: &CType) -> Result<CType, NoMemory>
    ensures { IfOk result (λ made. made ≡ m.plain (t.Integer (c.common (m.basic_of (t.form_of_type a.now)) (m.basic_of (t.form_of_type b.now))))) }
{
    plain(alloc, TypeForm::Integer(common(basic_of(a), basic_of(b))))
}

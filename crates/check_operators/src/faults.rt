//! Which of two faults is told, and what a pointer that is moved or followed breaks.
ghost use Rattle.std.specs.Prelude.{◌≡◌, None, if◌then◌else◌};
ghost use Rattle.model_types.specs.Types.{form_of_type};
ghost use Rattle.model_core.specs.CoreTypes as t;
ghost use Rattle.model_checking.specs.Faults as f;
ghost use Rattle.model_checking.specs.PointerRules as m;

use c_types::{CType, Structs, TypeForm, is_complete};
use cake_base::{Fault, Place};
use check_base::wants;
use check_types::is_pointer;
use check_values::is_function;

/// The first fault, where there is one, or the second.
pub fn or_fault(first: Option<Fault>, second: Option<Fault>) -> Option<Fault>
    ensures { result ≡ f.or_fault first second }
{
    match first {
        Some(fault) => Some(fault),
        None => second,
    }
}

/// Whether a type is a pointer to a complete object.
pub fn points_to_object(structs: &Structs, ty: &CType) -> bool
    ensures { result ≡ m.points_to_object structs.now (form_of_type ty.now) }
{
    match ty.form() {
        TypeForm::Pointer(to) => !is_function(to) && is_complete(structs, to),
        TypeForm::Void
        | TypeForm::Integer(_)
        | TypeForm::Enum(..)
        | TypeForm::Array(..)
        | TypeForm::Struct(_)
        | TypeForm::Function(..) => false,
    }
}

/// C12 at the first token of an operand of this type, where it is a pointer, but to no complete object.
pub fn moved_fault(structs: &Structs, ty: &CType, first: Place) -> Option<Fault>
    ensures { result ≡ (if t.is_pointer (form_of_type ty.now) then f.wants (m.points_to_object structs.now (form_of_type ty.now)) first 12 else None) }
{
    if is_pointer(ty) {
        wants(points_to_object(structs, ty), first, 12)
    } else {
        None
    }
}

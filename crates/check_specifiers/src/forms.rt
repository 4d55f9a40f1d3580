//! What the form of a type is.
ghost use Rattle.std.specs.Prelude.{◌≡◌};
ghost use Rattle.model_types.specs.Types.{form_of_type};
ghost use Rattle.model_core.specs.TypedParts as m;
ghost use Rattle.model_core.specs.PossibleTypes as p;

use c_types::{CType, TypeForm};

/// Whether a type is that of a function.
pub(crate) fn is_function(ty: &CType) -> bool
    ensures { result ≡ m.is_function (form_of_type ty.now) }
{
    matches!(ty.form(), TypeForm::Function(..))
}

/// Whether a type is a pointer to an object or to void.
pub(crate) fn is_object_pointer(ty: &CType) -> bool
    ensures { result ≡ m.is_object_pointer (form_of_type ty.now) }
{
    match ty.form() {
        TypeForm::Pointer(to) => !is_function(to),
        TypeForm::Void => false,
        TypeForm::Integer(_) => false,
        TypeForm::Enum(..) => false,
        TypeForm::Array(..) => false,
        TypeForm::Struct(_) => false,
        TypeForm::Function(..) => false,
    }
}

/// Whether a type is neither an array nor a function.
pub(crate) fn is_value_type(ty: &CType) -> bool
    ensures { result ≡ p.is_value_form (form_of_type ty.now) }
{
    match ty.form() {
        TypeForm::Array(..) => false,
        TypeForm::Function(..) => false,
        TypeForm::Void => true,
        TypeForm::Integer(_) => true,
        TypeForm::Enum(..) => true,
        TypeForm::Pointer(_) => true,
        TypeForm::Struct(_) => true,
    }
}

//! What the types of values are.
ghost use Rattle.std.specs.Prelude.{◌≡◌};
ghost use Rattle.model_types.specs.Types.{form_of_type};
ghost use Rattle.model_core.specs.CoreTypes as t;
ghost use Rattle.model_core.specs.SameTypes as s;
ghost use Rattle.model_core.specs.TypedParts as p;

use c_types::{CType, Quals, TypeForm, same_quals};

const NO_QUALS: Quals = Quals {
    has_const: false,
    has_restrict: false,
    has_owner: false,
    has_view: false,
    has_opt: false,
};

/// Whether a type is `void`, whatever its qualifiers (ISO/IEC 9899:2024, 6.2.5).
#[tactic(auto, using(crate::proofs::TypeTests::void_by_form))]
pub fn is_void(ty: &CType) -> bool
    ensures { result ≡ t.is_void ty.now }
{
    matches!(ty.form(), TypeForm::Void)
}

/// Whether a type is an array.
pub fn is_array(ty: &CType) -> bool
    ensures { result ≡ p.is_array (form_of_type ty.now) }
{
    matches!(ty.form(), TypeForm::Array(..))
}

/// Whether values of a type can be loaded and stored: it is an integer type, a pointer or a structure.
pub fn is_storable(ty: &CType) -> bool
    ensures { result ≡ p.is_storable (form_of_type ty.now) }
{
    matches!(
        ty.form(),
        TypeForm::Integer(_) | TypeForm::Enum(..) | TypeForm::Pointer(_) | TypeForm::Struct(_)
    )
}

/// Whether a type is `void *`, that of `nullptr`.
#[tactic(auto, using(crate::proofs::TypeTests::plain_void_by_parts))]
pub fn is_plain_void_pointer(ty: &CType) -> bool
    ensures { result ≡ s.is_plain_void_pointer (form_of_type ty.now) }
{
    match ty.form() {
        TypeForm::Pointer(to) => is_void(to) && same_quals(to.quals(), NO_QUALS),
        TypeForm::Void
        | TypeForm::Integer(_)
        | TypeForm::Enum(..)
        | TypeForm::Array(..)
        | TypeForm::Struct(_)
        | TypeForm::Function(..) => false,
    }
}

//! The members of structures by their names (ISO/IEC 9899:2024, 6.5.3.4).
ghost use Rattle.std.specs.Prelude.{◌≡◌};
ghost use Rattle.model_types.specs.Types.{form_of_type};
ghost use Rattle.model_core.specs.TypedParts as p;

use c_types::{CType, TypeForm};

/// Whether a type is a structure.
pub fn is_struct(ty: &CType) -> bool
    ensures { result ≡ p.is_struct (form_of_type ty.now) }
{
    matches!(ty.form(), TypeForm::Struct(_))
}

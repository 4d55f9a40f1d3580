//! Qualifiers of what pointers point to (ISO/IEC 9899:2024, 6.5.17.2, 6.7.4.1).
ghost use Rattle.std.specs.Prelude.{◌≡◌};
ghost use Rattle.model_types.specs.Types.{form_of_type};
ghost use Rattle.model_checking.specs.Qualifiers as m;

use c_types::{CType, Quals, TypeForm};

/// The qualifiers of a type from outside: those of an array are its elements'.
pub fn outer_quals(ty: &CType) -> Quals
    ensures { result ≡ m.outer_quals ty.now }
{
    match ty.form() {
        TypeForm::Array(of, _) => outer_quals(of),
        TypeForm::Void => ty.quals(),
        TypeForm::Integer(_) => ty.quals(),
        TypeForm::Enum(..) => ty.quals(),
        TypeForm::Pointer(_) => ty.quals(),
        TypeForm::Struct(_) => ty.quals(),
        TypeForm::Function(..) => ty.quals(),
    }
}

/// Whether `const` or `_View` is lost, or `_Owner` or `_Opt` isn't the same.
fn loses(from: Quals, to: Quals) -> bool
    ensures { result ≡ m.loses from to }
{
    from.has_const && !to.has_const
        || from.has_view && !to.has_view
        || from.has_owner != to.has_owner
        || from.has_opt != to.has_opt
}

/// Whether a pointer of one type loses qualifiers of what it points to where it becomes one of another; of other
/// types nothing is lost.
pub fn loses_behind(from: &CType, to: &CType) -> bool
    ensures { result ≡ m.loses_behind (form_of_type from.now) (form_of_type to.now) }
{
    match (from.form(), to.form()) {
        (TypeForm::Pointer(from), TypeForm::Pointer(to)) => {
            loses(outer_quals(from), outer_quals(to))
        }
        _ => false,
    }
}

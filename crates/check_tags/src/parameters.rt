//! Parameters of type void (ISO/IEC 9899:2024, 6.7.7.4).
ghost use Rattle.std.specs.Prelude.{◌≡◌};
ghost use Rattle.model_core.specs.CoreTypes as t;
ghost use Rattle.model_checking.specs.DeclaratorTypes as m;

use c_types::{CType, TypeForm};
use cake_base::{Fault, Place};
use check_base::fault_at;
use decl_scope::Entry;

/// A parameter has type void.
const VOID_PARAMETER: u32 = 28;

#[tactic(auto, using(crate::proofs::VoidLaws::void_by_form))]
fn is_void(ty: &CType) -> bool
    ensures { result ≡ t.is_void ty.now }
{
    matches!(ty.form(), TypeForm::Void)
}

/// The place of the first of what is declared that has type void.
fn first_void(entries: &[Entry]) -> Option<Place>
    ensures { result ≡ m.first_void entries.now }
{
    for entry in entries {
        if is_void(&entry.ty) {
            return Some(entry.place);
        }
    }
    None
}

/// C28 at the first parameter of type void, of those that these are declared for.
pub fn void_fault(entries: &[Entry]) -> Option<Fault>
    ensures { result ≡ m.void_fault entries.now }
{
    fault_at(first_void(entries), VOID_PARAMETER)
}

//! Compatible types.
ghost use Rattle.std.specs.Prelude.{◌≡◌};
ghost use Rattle.model_types.specs.Types as t;
ghost use Rattle.model_types.specs.Compatible as m;
ghost use Rattle.c_types.specs.Forms.{form_of};

use crate::structs::Structs;
use crate::types::{CType, TypeForm};
use model_types::numbers::Basic;
use model_types::types::Quals;

fn same_basic(a: Basic, b: Basic) -> bool
    ensures { result ≡ m.same_basic a b }
{
    a == b
}

/// Whether two sets of qualifiers agree but for `const` and `restrict`.
pub fn same_ownership(a: Quals, b: Quals) -> bool
    ensures { result ≡ m.same_ownership a b }
{
    a.has_owner == b.has_owner && a.has_view == b.has_view && a.has_opt == b.has_opt
}

/// Whether two sets of qualifiers are the same (ISO/IEC 9899:2024, 6.7.4).
pub fn same_quals(a: Quals, b: Quals) -> bool
    ensures { result ≡ m.same_quals a b }
{
    a.has_const == b.has_const && a.has_restrict == b.has_restrict && same_ownership(a, b)
}

fn lengths_agree(a: Option<u64>, b: Option<u64>) -> bool
    ensures { result ≡ m.lengths_agree a b }
{
    match (a, b) {
        (Some(a), Some(b)) => a == b,
        (Some(_), None) => true,
        (None, _) => true,
    }
}

/// Whether two types are compatible (ISO/IEC 9899:2024, 6.2.7): both void, the same integer type, an
/// enumeration and itself or its underlying type, pointers to compatible types, arrays of compatible
/// elements whose lengths agree or of which one has none, the same structure, or functions of
/// compatible results and parameters, both variadic or neither; and qualifiers agree at every depth,
/// but for `const` and `restrict` of a parameter or a result itself.
pub fn compatible(_structs: &Structs, a: &CType, b: &CType) -> bool
    ensures { result ≡ m.compatible a.now b.now }
{
    are_compatible(a, b)
}

/// Whether qualifiers agree at every depth and the forms are compatible.
#[cycle(compatible)]
fn are_compatible(a: &CType, b: &CType) -> bool
    ensures { result ≡ m.compatible a.now b.now }
{
    same_quals(a.quals(), b.quals()) && compatible_forms(a.form(), b.form())
}

#[cycle(compatible)]
fn compatible_passed(a: &CType, b: &CType) -> bool
    ensures { result ≡ m.compatible_passed a.now b.now }
{
    same_ownership(a.quals(), b.quals()) && compatible_forms(a.form(), b.form())
}

#[cycle(compatible)]
fn compatible_forms(a: &TypeForm, b: &TypeForm) -> bool
    ensures { result ≡ m.compatible_forms (form_of a.now) (form_of b.now) }
{
    match (a, b) {
        (TypeForm::Void, TypeForm::Void) => true,
        (TypeForm::Integer(a), TypeForm::Integer(b)) => same_basic(*a, *b),
        (TypeForm::Integer(a), TypeForm::Enum(b, _)) => same_basic(*a, *b),
        (TypeForm::Enum(a, _), TypeForm::Integer(b)) => same_basic(*a, *b),
        (TypeForm::Enum(a, d), TypeForm::Enum(b, e)) => *d == *e && same_basic(*a, *b),
        (TypeForm::Pointer(a), TypeForm::Pointer(b)) => are_compatible(a, b),
        (TypeForm::Array(a, m), TypeForm::Array(b, n)) => {
            are_compatible(a, b) && lengths_agree(*m, *n)
        }
        (TypeForm::Struct(a), TypeForm::Struct(b)) => a.0 == b.0,
        (TypeForm::Function(a, ps, v), TypeForm::Function(b, qs, w)) => {
            compatible_passed(a, b) && compatible_lists(ps.as_slice(), qs.as_slice()) && *v == *w
        }
        _ => false,
    }
}

#[cycle(compatible)]
fn compatible_lists(a: &[CType], b: &[CType]) -> bool
    ensures { result ≡ m.compatible_lists (t.types a.now) (t.types b.now) }
{
    if a.len() != b.len() {
        return false;
    }
    let mut at = 0;
    for one in a {
        if !compatible_passed(one, &b[at]) {
            return false;
        }
        at += 1;
    }
    true
}

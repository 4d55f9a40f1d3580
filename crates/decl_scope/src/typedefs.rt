//! When a name of a type may be declared again.
ghost use Rattle.std.specs.Prelude.{◌≡◌};
ghost use Rattle.model_types.specs.Types as t;
ghost use Rattle.model_scopes.specs.SameTypedefs as m;
ghost use Rattle.c_types.specs.Forms.{form_of};

use c_types::{CType, TypeForm, same_ownership, same_quals};
use check_types::same_length;

/// Whether two types are the same in every part, `const` and `restrict` of a parameter or a result
/// itself aside.
#[cycle(same)]
pub fn same_typedef(a: &CType, b: &CType) -> bool
    ensures { result ≡ m.same_typedef a.now b.now }
{
    same_quals(a.quals(), b.quals()) && same_forms(a.form(), b.form())
}

#[cycle(same)]
fn same_passed(a: &CType, b: &CType) -> bool
    ensures { result ≡ m.same_passed a.now b.now }
{
    same_ownership(a.quals(), b.quals()) && same_forms(a.form(), b.form())
}

#[cycle(same)]
fn same_forms(a: &TypeForm, b: &TypeForm) -> bool
    ensures { result ≡ m.same_typedef_forms (form_of a.now) (form_of b.now) }
{
    match (a, b) {
        (TypeForm::Void, TypeForm::Void) => true,
        (TypeForm::Integer(a), TypeForm::Integer(b)) => *a == *b,
        (TypeForm::Enum(a, d), TypeForm::Enum(b, e)) => *d == *e && *a == *b,
        (TypeForm::Pointer(a), TypeForm::Pointer(b)) => same_typedef(a, b),
        (TypeForm::Array(a, m), TypeForm::Array(b, n)) => {
            same_typedef(a, b) && same_length(*m, *n)
        }
        (TypeForm::Struct(a), TypeForm::Struct(b)) => a.0 == b.0,
        (TypeForm::Function(a, ps, v), TypeForm::Function(b, qs, w)) => {
            same_passed(a, b) && same_lists(ps.as_slice(), qs.as_slice()) && *v == *w
        }
        _ => false,
    }
}

#[cycle(same)]
fn same_lists(a: &[CType], b: &[CType]) -> bool
    ensures { result ≡ m.same_passed_lists (t.types a.now) (t.types b.now) }
{
    if a.len() != b.len() {
        return false;
    }
    for at in 0..a.len() {
        if !same_passed(&a[at], &b[at]) {
            return false;
        }
    }
    true
}

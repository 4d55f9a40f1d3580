//! Types that are the same in every part.
ghost use Rattle.std.specs.Prelude.{◌≡◌};
ghost use Rattle.model_types.specs.Types as t;
ghost use Rattle.model_core.specs.SameTypes as m;
ghost use Rattle.c_types.specs.Forms.{form_of};

use c_types::{CType, TypeForm, same_quals};

/// Whether two arrays have the same length, or both have none.
pub fn same_length(a: Option<u64>, b: Option<u64>) -> bool
    ensures { result ≡ m.same_length a b }
{
    match (a, b) {
        (Some(a), Some(b)) => a == b,
        (None, None) => true,
        _ => false,
    }
}

/// Whether two types are the same in every part, the qualifiers among them (ISO/IEC 9899:2024, 6.2.7).
#[cycle(same)]
pub fn same_type(a: &CType, b: &CType) -> bool
    ensures { result ≡ m.same_type a.now b.now }
{
    same_quals(a.quals(), b.quals()) && same_forms(a.form(), b.form())
}

/// Whether two types are the same, their own qualifiers aside.
pub fn same_value_type(a: &CType, b: &CType) -> bool
    ensures { result ≡ m.same_value_type a.now b.now }
{
    same_forms(a.form(), b.form())
}

#[cycle(same)]
fn same_forms(a: &TypeForm, b: &TypeForm) -> bool
    ensures { result ≡ m.same_form (form_of a.now) (form_of b.now) }
{
    match (a, b) {
        (TypeForm::Void, TypeForm::Void) => true,
        (TypeForm::Integer(a), TypeForm::Integer(b)) => *a == *b,
        (TypeForm::Enum(a, d), TypeForm::Enum(b, e)) => *d == *e && *a == *b,
        (TypeForm::Pointer(a), TypeForm::Pointer(b)) => same_type(a, b),
        (TypeForm::Array(a, m), TypeForm::Array(b, n)) => same_type(a, b) && same_length(*m, *n),
        (TypeForm::Struct(a), TypeForm::Struct(b)) => a.0 == b.0,
        (TypeForm::Function(a, ps, v), TypeForm::Function(b, qs, w)) => {
            same_type(a, b) && same_lists(ps.as_slice(), qs.as_slice()) && *v == *w
        }
        _ => false,
    }
}

#[cycle(same)]
fn same_lists(a: &[CType], b: &[CType]) -> bool
    ensures { result ≡ m.same_types (t.types a.now) (t.types b.now) }
{
    if a.len() != b.len() {
        return false;
    }
    for at in 0..a.len() {
        if !same_type(&a[at], &b[at]) {
            return false;
        }
    }
    true
}

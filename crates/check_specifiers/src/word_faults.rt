//! The constraints on words of storage and on a missing type, which a list of specifiers breaks by its words alone
//! (ISO/IEC 9899:2024, 6.7.1, 6.7.2, 6.7.5).
ghost use Rattle.std.specs.Prelude.{◌≡◌};
ghost use Rattle.c_tree.specs.SyntaxViews.{spec_of, specs_items};
ghost use Rattle.model_checking.specs.Words as w;
ghost use Rattle.model_checking.specs.SpecifierWords as m;
ghost use Rattle.check_specifiers.specs.Contexts.{context_of};

use crate::contexts::{Context, takes_word};
use crate::words::{
    has_auto_word, has_static_word, has_type_specifier, inline_place, place_of_word,
};
use c_tree::Spec;
use cake_base::{Fault, Place};
use check_base::fault_at;

/// A word of storage isn't allowed where the list stands, or `inline` stands without `static`.
const REFUSED_STORAGE: u32 = 48;

fn is_refused(context: Context, infers: bool, spec: &Spec) -> bool
    ensures { result ≡ m.is_refused (context_of context) infers (w.word_of (spec_of spec.now)) }
{
    match spec {
        Spec::Storage { word, .. } => !takes_word(context, infers, *word),
        Spec::Function { .. } => false,
        Spec::Keyword { .. } => false,
        Spec::Qualifier(_) => false,
        Spec::StructTag { .. } => false,
        Spec::Struct { .. } => false,
        Spec::EnumTag { .. } => false,
        Spec::Enum { .. } => false,
        Spec::TypedefName(_) => false,
        Spec::TypeofExpr { .. } => false,
        Spec::TypeofType { .. } => false,
    }
}

/// The place of the first word of storage that isn't allowed where the list stands.
fn refused_place(context: Context, infers: bool, specs: &[Spec]) -> Option<Place>
    ensures { result ≡ w.place_of_first (m.is_refused (context_of context) infers) (w.words_of (specs_items specs.now)) }
{
    for spec in specs {
        if is_refused(context, infers, spec) {
            return Some(place_of_word(spec));
        }
    }
    None
}

/// C48 at the first word of storage that isn't allowed where the list stands.
pub fn storage_fault(context: Context, specs: &[Spec]) -> Option<Fault>
    ensures { result ≡ m.storage_fault (context_of context) (w.words_of (specs_items specs.now)) }
{
    let infers = !has_type_specifier(specs);
    fault_at(refused_place(context, infers, specs), REFUSED_STORAGE)
}

/// C48 at an `inline` without `static`.
pub fn inline_fault(specs: &[Spec]) -> Option<Fault>
    ensures { result ≡ m.inline_fault (w.words_of (specs_items specs.now)) }
{
    if has_static_word(specs) {
        None
    } else {
        fault_at(inline_place(specs), REFUSED_STORAGE)
    }
}

fn lacks_type(specs: &[Spec]) -> bool
    ensures { result ≡ m.lacks_type (w.words_of (specs_items specs.now)) }
{
    !has_type_specifier(specs) && !has_auto_word(specs)
}

pub(crate) fn first_place(specs: &[Spec]) -> Option<Place>
    ensures { result ≡ m.first_place (w.words_of (specs_items specs.now)) }
{
    match specs.split_first() {
        Some((spec, _)) => Some(place_of_word(spec)),
        None => None,
    }
}

/// The first word of a list that neither names a type nor lets one be inferred.
pub fn missing_type(specs: &[Spec]) -> Option<Place>
    ensures { result ≡ m.missing_type (w.words_of (specs_items specs.now)) }
{
    if lacks_type(specs) {
        first_place(specs)
    } else {
        None
    }
}

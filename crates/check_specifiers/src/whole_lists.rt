//! What a whole list of specifiers breaks by its words alone (ISO/IEC 9899:2024, 6.7.1, 6.7.2, 6.7.3.1, 6.7.4.1, 6.7.5).
ghost use Rattle.std.specs.Prelude.{◌≡◌, ◌++◌, IfOk, OnOk};
ghost use Rattle.std.specs.List.{list_any};
ghost use Rattle.c_tree.specs.SyntaxViews.{spec_of, specs_items};
ghost use Rattle.model_checking.specs.Words as w;
ghost use Rattle.model_checking.specs.Qualified as q;
ghost use Rattle.model_checking.specs.SpecifierWords as m;
ghost use Rattle.model_core.specs.CoreTypes.{no_quals};
ghost use Rattle.check_specifiers.specs.Contexts.{context_of};

use crate::combinations::{combination_fault, types_combine};
use crate::contexts::Context;
use crate::qualifiers::{meeting_fault, misplaced_alone, wants_pointer_alone};
use crate::word_faults::{inline_fault, storage_fault};
use crate::words::has_type_specifier;
use c_tree::Spec;
use cake_base::{Fault, NoMemory};
use check_base::first_of_faults;
use model_grammar::syntax::Qualifier;
use std::alloc::Global;

/// Adds a specifier's qualifier, where it is one.
fn push_qualifier(qualifiers: &mut Vec<Qualifier>, spec: &Spec) -> Result<(), NoMemory>
    ensures { OnOk result (qualifiers.new.items ≡ qualifiers.old.items ++ w.qualifier_in (w.word_of (spec_of spec.now))) }
{
    match spec {
        Spec::Qualifier(qualifier) => qualifiers.push(*qualifier)?,
        Spec::Storage { .. } => {}
        Spec::Function { .. } => {}
        Spec::Keyword { .. } => {}
        Spec::StructTag { .. } => {}
        Spec::Struct { .. } => {}
        Spec::EnumTag { .. } => {}
        Spec::Enum { .. } => {}
        Spec::TypedefName(_) => {}
        Spec::TypeofExpr { .. } => {}
        Spec::TypeofType { .. } => {}
    }
    Ok(())
}

/// The qualifiers of a list (6.7.4.1).
#[tactic(auto, using(crate::proofs::QualifierLaws::qualifiers_from))]
pub fn qualifiers_of(alloc: Global, specs: &[Spec]) -> Result<Vec<Qualifier>, NoMemory>
    ensures { IfOk result (λ made. made.items ≡ w.qualifiers_of (w.words_of (specs_items specs.now))) }
{
    let mut qualifiers = Vec::new(alloc);
    for spec in specs {
        push_qualifier(&mut qualifiers, spec)?;
    }
    Ok(qualifiers)
}

fn is_named_type(spec: &Spec) -> bool
    ensures { result ≡ w.is_named_type (w.word_of (spec_of spec.now)) }
{
    match spec {
        Spec::Storage { .. } => false,
        Spec::Function { .. } => false,
        Spec::Keyword { .. } => false,
        Spec::Qualifier(_) => false,
        Spec::StructTag { .. } => false,
        Spec::Struct { .. } => false,
        Spec::EnumTag { .. } => false,
        Spec::Enum { .. } => false,
        Spec::TypedefName(_) => true,
        Spec::TypeofExpr { .. } => true,
        Spec::TypeofType { .. } => true,
    }
}

/// Whether a list has a typedef name or a `typeof`.
fn has_named_type(specs: &[Spec]) -> bool
    ensures { result ≡ list_any w.is_named_type (w.words_of (specs_items specs.now)) }
{
    for spec in specs {
        if is_named_type(spec) {
            return true;
        }
    }
    false
}

/// Whether the type is one of keywords, a structure or an enumeration.
fn shows_no_pointer(specs: &[Spec]) -> bool
    ensures { result ≡ m.shows_no_pointer (w.words_of (specs_items specs.now)) }
{
    has_type_specifier(specs) && !has_named_type(specs) && types_combine(specs)
}

/// C29 at the first qualifier of ownership, where the words of a list alone show it, whose qualifiers these are:
/// `_Owner` and `_View` meet, or the type is no pointer.
fn pointer_fault(specs: &[Spec], qualifiers: &[Qualifier]) -> Option<Fault>
    ensures { qualifiers.now ≡ w.qualifiers_of (w.words_of (specs_items specs.now)) → result ≡ m.pointer_fault (w.words_of (specs_items specs.now)) }
{
    if shows_no_pointer(specs) && wants_pointer_alone(qualifiers) {
        misplaced_alone(qualifiers)
    } else {
        meeting_fault(qualifiers)
    }
}

/// The first constraint that a list of specifiers breaks by its words alone: C27, C29 or C48.
pub fn words_fault(
    alloc: Global,
    context: Context,
    specs: &[Spec],
) -> Result<Option<Fault>, NoMemory>
    ensures { IfOk result (λ fault. fault ≡ m.words_fault (context_of context) (specs_items specs.now)) }
{
    let qualifiers = qualifiers_of(alloc, specs)?;
    let placing = first_of_faults(storage_fault(context, specs), inline_fault(specs));
    let ownership = first_of_faults(pointer_fault(specs, &qualifiers), placing);
    Ok(first_of_faults(combination_fault(specs), ownership))
}

//! The words of a list that don't combine, and a type that is missing (ISO/IEC 9899:2024, 6.7.2, 6.7.3.1).
ghost use Rattle.std.specs.Prelude.{◌≡◌, ◌||◌, ◌&&◌, not, [], ◌∷◌, is_some};
ghost use Rattle.std.specs.List.{list_any};
ghost use Rattle.c_tree.specs.SyntaxViews.{spec_of, specs_items};
ghost use Rattle.model_checking.specs.Words as w;
ghost use Rattle.model_checking.specs.TypeKeywords as t;
ghost use Rattle.model_checking.specs.SpecifierWords as m;

use crate::keywords::Keywords;
use crate::word_faults::missing_type;
use crate::words::{has_type_specifier, is_type_specifier, place_of_word};
use c_tree::Spec;
use cake_base::{Fault, Place};
use check_base::fault_at;
use model_grammar::syntax::{StorageWord, TypeWord};

/// A word doesn't combine with those before it, or a type is missing.
const COMBINATION: u32 = 27;

fn is_auto(word: StorageWord) -> bool
    ensures { result ≡ m.stand_together StorageWord.Extern word }
{
    match word {
        StorageWord::Auto => true,
        StorageWord::Typedef => false,
        StorageWord::Extern => false,
        StorageWord::Static => false,
        StorageWord::Register => false,
        StorageWord::Constexpr => false,
    }
}

fn stands_beside_auto(word: StorageWord) -> bool
    ensures { result ≡ m.stand_together StorageWord.Auto word }
{
    match word {
        StorageWord::Auto => false,
        StorageWord::Typedef => false,
        StorageWord::Extern => true,
        StorageWord::Static => true,
        StorageWord::Register => true,
        StorageWord::Constexpr => true,
    }
}

fn is_auto_or_constexpr(word: StorageWord) -> bool
    ensures { result ≡ m.stand_together StorageWord.Static word }
{
    match word {
        StorageWord::Auto => true,
        StorageWord::Typedef => false,
        StorageWord::Extern => false,
        StorageWord::Static => false,
        StorageWord::Register => false,
        StorageWord::Constexpr => true,
    }
}

fn stands_beside_constexpr(word: StorageWord) -> bool
    ensures { result ≡ m.stand_together StorageWord.Constexpr word }
{
    match word {
        StorageWord::Auto => true,
        StorageWord::Typedef => false,
        StorageWord::Extern => false,
        StorageWord::Static => true,
        StorageWord::Register => true,
        StorageWord::Constexpr => false,
    }
}

/// Whether two words of storage may stand in one list.
fn stand_together(word: StorageWord, other: StorageWord) -> bool
    ensures { result ≡ m.stand_together word other }
{
    match word {
        StorageWord::Auto => stands_beside_auto(other),
        StorageWord::Typedef => false,
        StorageWord::Extern => is_auto(other),
        StorageWord::Static => is_auto_or_constexpr(other),
        StorageWord::Register => is_auto_or_constexpr(other),
        StorageWord::Constexpr => stands_beside_constexpr(other),
    }
}

fn stands_beside(word: StorageWord, spec: &Spec) -> bool
    ensures { result ≡ m.stands_beside word (w.word_of (spec_of spec.now)) }
{
    match spec {
        Spec::Storage { word: other, .. } => stand_together(word, *other),
        Spec::Function { .. } => true,
        Spec::Keyword { .. } => true,
        Spec::Qualifier(_) => true,
        Spec::StructTag { .. } => true,
        Spec::Struct { .. } => true,
        Spec::EnumTag { .. } => true,
        Spec::Enum { .. } => true,
        Spec::TypedefName(_) => true,
        Spec::TypeofExpr { .. } => true,
        Spec::TypeofType { .. } => true,
    }
}

/// Whether no word of storage before it stands in the way of one.
fn storage_combines(word: StorageWord, before: &[Spec]) -> bool
    ensures { result ≡ m.storage_combines word (w.words_of (specs_items before.now)) }
{
    for spec in before {
        if !stands_beside(word, spec) {
            return false;
        }
    }
    true
}

fn is_whole_type(spec: &Spec) -> bool
    ensures { result ≡ w.is_whole_type (w.word_of (spec_of spec.now)) }
{
    match spec {
        Spec::Storage { .. } => false,
        Spec::Function { .. } => false,
        Spec::Keyword { .. } => false,
        Spec::Qualifier(_) => false,
        Spec::StructTag { .. } => true,
        Spec::Struct { .. } => true,
        Spec::EnumTag { .. } => true,
        Spec::Enum { .. } => true,
        Spec::TypedefName(_) => true,
        Spec::TypeofExpr { .. } => true,
        Spec::TypeofType { .. } => true,
    }
}

/// Whether a list has a type specifier that is no keyword of a type.
fn has_whole_type(specs: &[Spec]) -> bool
    ensures { result ≡ list_any w.is_whole_type (w.words_of (specs_items specs.now)) }
{
    for spec in specs {
        if is_whole_type(spec) {
            return true;
        }
    }
    false
}

/// Whether a keyword names a type with those before it.
#[tactic(auto, using(crate::proofs::CombinationLaws::one_keyword))]
fn names_type(word: TypeWord, before: &[Spec]) -> bool
    ensures { result ≡ is_some (t.type_by_words (word ∷ w.type_words (w.words_of (specs_items before.now)))) }
{
    Keywords::of(before).with(word).name_type()
}

/// Whether a keyword of a type combines with those before it.
fn keyword_combines(word: TypeWord, before: &[Spec]) -> bool
    ensures { result ≡ (not (list_any w.is_whole_type (w.words_of (specs_items before.now))) && is_some (t.type_by_words (word ∷ w.type_words (w.words_of (specs_items before.now))))) }
{
    !has_whole_type(before) && names_type(word, before)
}

/// Whether a specifier combines with those before it: one that isn't a keyword of a type is the only type specifier.
fn combines(before: &[Spec], spec: &Spec) -> bool
    ensures { result ≡ m.combines (w.words_of (specs_items before.now)) (w.word_of (spec_of spec.now)) }
{
    match spec {
        Spec::Storage { word, .. } => storage_combines(*word, before),
        Spec::Function { .. } => true,
        Spec::Keyword { word, .. } => keyword_combines(*word, before),
        Spec::Qualifier(_) => true,
        Spec::StructTag { .. } => !has_type_specifier(before),
        Spec::Struct { .. } => !has_type_specifier(before),
        Spec::EnumTag { .. } => !has_type_specifier(before),
        Spec::Enum { .. } => !has_type_specifier(before),
        Spec::TypedefName(_) => !has_type_specifier(before),
        Spec::TypeofExpr { .. } => !has_type_specifier(before),
        Spec::TypeofType { .. } => !has_type_specifier(before),
    }
}

/// The place of the first word that doesn't combine with those before it.
#[tactic(auto, using(crate::proofs::CombinationLaws::uncombined_from))]
fn first_uncombined(specs: &[Spec]) -> Option<Place>
    ensures { result ≡ m.first_uncombined [] (w.words_of (specs_items specs.now)) }
{
    for at in 0..specs.len() {
        let (before, _) = specs.split_at(at);
        if !combines(before, &specs[at]) {
            return Some(place_of_word(&specs[at]));
        }
    }
    None
}

/// C27 at the first word that doesn't combine with those before it, or at the first word of a list that neither names a
/// type nor lets one be inferred.
pub fn combination_fault(specs: &[Spec]) -> Option<Fault>
    ensures { result ≡ m.combination_fault (w.words_of (specs_items specs.now)) }
{
    match first_uncombined(specs) {
        Some(place) => fault_at(Some(place), COMBINATION),
        None => fault_at(missing_type(specs), COMBINATION),
    }
}

/// Whether a specifier is a type specifier that doesn't combine with those before it.
fn is_in_the_way(before: &[Spec], spec: &Spec) -> bool
    ensures { result ≡ not (not (w.is_type_specifier (w.word_of (spec_of spec.now))) || m.combines (w.words_of (specs_items before.now)) (w.word_of (spec_of spec.now))) }
{
    is_type_specifier(spec) && !combines(before, spec)
}

/// Whether the type specifiers of a list combine.
#[tactic(auto, using(crate::proofs::CombinationLaws::combined_from))]
pub(crate) fn types_combine(specs: &[Spec]) -> bool
    ensures { result ≡ m.types_combine [] (w.words_of (specs_items specs.now)) }
{
    for at in 0..specs.len() {
        let (before, _) = specs.split_at(at);
        if is_in_the_way(before, &specs[at]) {
            return false;
        }
    }
    true
}

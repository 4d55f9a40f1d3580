//! The words of a list of specifiers, as far as they show what it declares without its parts being known
//! (ISO/IEC 9899:2024, 6.7.1).
ghost use Rattle.std.specs.Prelude.{◌≡◌, [], ◌∷◌};
ghost use Rattle.std.specs.List.{list_any};
ghost use Rattle.cake_base.specs.declared.places.Place.{Place};
ghost use Rattle.c_tree.specs.SyntaxViews.{spec_of, specs_items};
ghost use Rattle.model_checking.specs.Words as m;
ghost use Rattle.check_specifiers.specs.Storages.{storage_in, with_storage};

use c_tree::Spec;
use cake_base::Place;
use model_grammar::syntax::{FunctionWord, StorageWord};

/// The words of storage that stand among specifiers (6.7.2), and `inline` (6.7.5).
#[derive(Clone, Copy)]
pub struct Storage {
    pub has_typedef: bool,
    pub has_extern: bool,
    pub has_static: bool,
    pub has_auto: bool,
    pub has_register: bool,
    pub has_constexpr: bool,
    pub has_inline: bool,
}

const NO_STORAGE: Storage = Storage {
    has_typedef: false,
    has_extern: false,
    has_static: false,
    has_auto: false,
    has_register: false,
    has_constexpr: false,
    has_inline: false,
};

/// The place of a specifier's word.
pub fn place_of_word(spec: &Spec) -> Place
    ensures { result ≡ m.place_of_word (m.word_of (spec_of spec.now)) }
{
    match spec {
        Spec::Storage { place, .. } => *place,
        Spec::Function { place, .. } => *place,
        Spec::Keyword { place, .. } => *place,
        Spec::Qualifier(qualifier) => qualifier.place,
        Spec::StructTag { place, .. } => *place,
        Spec::Struct { place, .. } => *place,
        Spec::EnumTag { place, .. } => *place,
        Spec::Enum { place, .. } => *place,
        Spec::TypedefName(name) => name.place,
        Spec::TypeofExpr { place, .. } => *place,
        Spec::TypeofType { place, .. } => *place,
    }
}

/// Words of storage, and one more.
fn with_storage_word(storage: Storage, word: StorageWord) -> Storage
    ensures { (place : Place) → storage_in result ≡ with_storage (storage_in storage) (m.storage_of (m.a_storage_word word place ∷ [])) }
{
    match word {
        StorageWord::Typedef => Storage {
            has_typedef: true,
            ..storage
        },
        StorageWord::Extern => Storage {
            has_extern: true,
            ..storage
        },
        StorageWord::Static => Storage {
            has_static: true,
            ..storage
        },
        StorageWord::Auto => Storage {
            has_auto: true,
            ..storage
        },
        StorageWord::Register => Storage {
            has_register: true,
            ..storage
        },
        StorageWord::Constexpr => Storage {
            has_constexpr: true,
            ..storage
        },
    }
}

/// Words of storage, and those of a specifier.
fn with_word(storage: Storage, spec: &Spec) -> Storage
    ensures { storage_in result ≡ with_storage (storage_in storage) (m.storage_of (m.word_of (spec_of spec.now) ∷ [])) }
{
    match spec {
        Spec::Storage { word, .. } => with_storage_word(storage, *word),
        Spec::Function {
            word: FunctionWord::Inline,
            ..
        } => Storage {
            has_inline: true,
            ..storage
        },
        Spec::Function {
            word: FunctionWord::Noreturn,
            ..
        } => storage,
        Spec::Keyword { .. } => storage,
        Spec::Qualifier(_) => storage,
        Spec::StructTag { .. } => storage,
        Spec::Struct { .. } => storage,
        Spec::EnumTag { .. } => storage,
        Spec::Enum { .. } => storage,
        Spec::TypedefName(_) => storage,
        Spec::TypeofExpr { .. } => storage,
        Spec::TypeofType { .. } => storage,
    }
}

/// The words of storage in a list.
pub fn storage_of(specs: &[Spec]) -> Storage
    ensures { storage_in result ≡ m.storage_of (m.words_of (specs_items specs.now)) }
{
    let mut storage = NO_STORAGE;
    for spec in specs {
        storage = with_word(storage, spec);
    }
    storage
}

/// Whether a specifier is a type specifier (6.7.3).
pub fn is_type_specifier(spec: &Spec) -> bool
    ensures { result ≡ m.is_type_specifier (m.word_of (spec_of spec.now)) }
{
    match spec {
        Spec::Storage { .. } => false,
        Spec::Function { .. } => false,
        Spec::Keyword { .. } => true,
        Spec::Qualifier(_) => false,
        Spec::StructTag { .. } => true,
        Spec::Struct { .. } => true,
        Spec::EnumTag { .. } => true,
        Spec::Enum { .. } => true,
        Spec::TypedefName(_) => true,
        Spec::TypeofExpr { .. } => true,
        Spec::TypeofType { .. } => true,
    }
}

/// Whether a list has a type specifier.
pub fn has_type_specifier(specs: &[Spec]) -> bool
    ensures { result ≡ m.has_type_specifier (m.words_of (specs_items specs.now)) }
{
    for spec in specs {
        if is_type_specifier(spec) {
            return true;
        }
    }
    false
}

fn is_inline_word(spec: &Spec) -> bool
    ensures { result ≡ m.is_inline_word (m.word_of (spec_of spec.now)) }
{
    match spec {
        Spec::Function {
            word: FunctionWord::Inline,
            ..
        } => true,
        Spec::Function {
            word: FunctionWord::Noreturn,
            ..
        } => false,
        Spec::Storage { .. } => false,
        Spec::Keyword { .. } => false,
        Spec::Qualifier(_) => false,
        Spec::StructTag { .. } => false,
        Spec::Struct { .. } => false,
        Spec::EnumTag { .. } => false,
        Spec::Enum { .. } => false,
        Spec::TypedefName(_) => false,
        Spec::TypeofExpr { .. } => false,
        Spec::TypeofType { .. } => false,
    }
}

/// The place of the first `inline`.
pub(crate) fn inline_place(specs: &[Spec]) -> Option<Place>
    ensures { result ≡ m.place_of_first m.is_inline_word (m.words_of (specs_items specs.now)) }
{
    for spec in specs {
        if is_inline_word(spec) {
            return Some(place_of_word(spec));
        }
    }
    None
}

fn is_static(word: StorageWord) -> bool
    ensures { (place : Place) → result ≡ m.is_static_word (m.a_storage_word word place) }
{
    match word {
        StorageWord::Typedef => false,
        StorageWord::Extern => false,
        StorageWord::Static => true,
        StorageWord::Auto => false,
        StorageWord::Register => false,
        StorageWord::Constexpr => false,
    }
}

fn is_static_word(spec: &Spec) -> bool
    ensures { result ≡ m.is_static_word (m.word_of (spec_of spec.now)) }
{
    match spec {
        Spec::Storage { word, .. } => is_static(*word),
        Spec::Function { .. } => false,
        Spec::Keyword { .. } => false,
        Spec::Qualifier(_) => false,
        Spec::StructTag { .. } => false,
        Spec::Struct { .. } => false,
        Spec::EnumTag { .. } => false,
        Spec::Enum { .. } => false,
        Spec::TypedefName(_) => false,
        Spec::TypeofExpr { .. } => false,
        Spec::TypeofType { .. } => false,
    }
}

/// Whether a list has the word `static`.
pub(crate) fn has_static_word(specs: &[Spec]) -> bool
    ensures { result ≡ list_any m.is_static_word (m.words_of (specs_items specs.now)) }
{
    for spec in specs {
        if is_static_word(spec) {
            return true;
        }
    }
    false
}

fn is_auto(word: StorageWord) -> bool
    ensures { (place : Place) → result ≡ m.is_auto_word (m.a_storage_word word place) }
{
    match word {
        StorageWord::Typedef => false,
        StorageWord::Extern => false,
        StorageWord::Static => false,
        StorageWord::Auto => true,
        StorageWord::Register => false,
        StorageWord::Constexpr => false,
    }
}

fn is_auto_word(spec: &Spec) -> bool
    ensures { result ≡ m.is_auto_word (m.word_of (spec_of spec.now)) }
{
    match spec {
        Spec::Storage { word, .. } => is_auto(*word),
        Spec::Function { .. } => false,
        Spec::Keyword { .. } => false,
        Spec::Qualifier(_) => false,
        Spec::StructTag { .. } => false,
        Spec::Struct { .. } => false,
        Spec::EnumTag { .. } => false,
        Spec::Enum { .. } => false,
        Spec::TypedefName(_) => false,
        Spec::TypeofExpr { .. } => false,
        Spec::TypeofType { .. } => false,
    }
}

/// Whether a list has the word `auto`.
pub(crate) fn has_auto_word(specs: &[Spec]) -> bool
    ensures { result ≡ list_any m.is_auto_word (m.words_of (specs_items specs.now)) }
{
    for spec in specs {
        if is_auto_word(spec) {
            return true;
        }
    }
    false
}

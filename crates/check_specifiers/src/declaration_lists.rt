//! The specifiers of a whole declaration (ISO/IEC 9899:2024, 6.7.2): what its declarators show of functions counts for the
//! words of storage, which stand before them.
ghost use Rattle.std.specs.Prelude.{◌≡◌, Err};
ghost use Rattle.std.specs.List.{list_any};
ghost use Rattle.std.specs.Option.{option_copied};
ghost use Rattle.c_tree.specs.SyntaxViews.{spec_of, specs_items, init_declarators_of};
ghost use Rattle.model_checking.specs.State.{State, gives};
ghost use Rattle.model_checking.specs.Words as w;
ghost use Rattle.model_checking.specs.DeclarationContexts as x;
ghost use Rattle.model_checking.specs.DeclarationSpecifiers as m;
ghost use Rattle.check_specifiers.specs.Contexts.{context_of};
ghost use Rattle.check_specifiers.specs.ListAnswers.{AnswersPart, AnswersShown, AnswersDeclaration, AnswersRefused};

use crate::contexts::Context;
use crate::nearest::declares_function;
use crate::specified::{Specified, specifiers, with_fault};
use crate::word_faults::first_place;
use crate::words::{has_auto_word, has_type_specifier, place_of_word, storage_of};
use c_tree::{InitDeclarator, Spec};
use c_types::CType;
use cake_base::{Fault, Place};
use check_base::{CheckError, fault_at};
use model_grammar::syntax::StorageWord;
use std::alloc::Global;

/// A type is to be inferred and nothing is declared.
const EMPTY_INFERENCE: u32 = 31;
/// In a block a function has a word of storage other than `extern`.
const BLOCK_FUNCTION: u32 = 48;

/// Whether one of the declarators is that of a function, given the type of the specifiers where it is known.
pub fn declare_function(given: Option<&CType>, declarators: &[InitDeclarator]) -> bool
    ensures { result ≡ m.declare_function (option_copied given.entry) (init_declarators_of declarators.now) }
{
    for declarator in declarators {
        if declares_function(given, &declarator.declarator) {
            return true;
        }
    }
    false
}

/// Whether what is declared has the scope of a block.
fn is_inner(context: Context) -> bool
    ensures { result ≡ x.is_inner (context_of context) }
{
    match context {
        Context::AtFile => false,
        Context::InBlock => true,
        Context::InFor => true,
        Context::InIf => true,
        Context::OfDefinition => false,
        Context::OfParameter => false,
        Context::OfMember => false,
        Context::OfTypeName => false,
    }
}

fn is_extern(word: StorageWord) -> bool
    ensures { (place : Place) → result ≡ w.is_extern_word (w.a_storage_word word place) }
{
    match word {
        StorageWord::Typedef => false,
        StorageWord::Extern => true,
        StorageWord::Static => false,
        StorageWord::Auto => false,
        StorageWord::Register => false,
        StorageWord::Constexpr => false,
    }
}

/// Whether a specifier is a word of storage other than `extern`.
fn is_other_word(spec: &Spec) -> bool
    ensures { result ≡ m.is_other_word (w.word_of (spec_of spec.now)) }
{
    match spec {
        Spec::Storage { word, .. } => !is_extern(*word),
        Spec::Function { .. } => false,
        Spec::Keyword { .. } => false,
        Spec::Qualifier(_) => false,
        Spec::StructTag { .. } => false,
        Spec::Struct { .. } => false,
        Spec::EnumTag { .. } => false,
        Spec::Enum { .. } => false,
        Spec::TypedefName(_) => false,
        Spec::TypeofExpr { .. } => false,
        Spec::TypeofType { .. } => false,
    }
}

/// The place of the first word of storage other than `extern`.
fn other_place(specs: &[Spec]) -> Option<Place>
    ensures { result ≡ w.place_of_first m.is_other_word (w.words_of (specs_items specs.now)) }
{
    for spec in specs {
        if is_other_word(spec) {
            return Some(place_of_word(spec));
        }
    }
    None
}

fn has_typedef_word(specs: &[Spec]) -> bool
    ensures { result ≡ list_any w.is_typedef_word (w.words_of (specs_items specs.now)) }
{
    storage_of(specs).has_typedef
}

/// C48 at the first word of storage other than `extern`, where a declaration in a block declares a function.
fn block_function_fault(
    context: Context,
    specs: &[Spec],
    given: Option<&CType>,
    declarators: &[InitDeclarator],
) -> Option<Fault>
    ensures { result ≡ m.block_function_fault (context_of context) (w.words_of (specs_items specs.now)) (option_copied given.entry) (init_declarators_of declarators.now) }
{
    if is_inner(context) && !has_typedef_word(specs) && declare_function(given, declarators) {
        fault_at(other_place(specs), BLOCK_FUNCTION)
    } else {
        None
    }
}

/// C31 at the first of a list by which a type is to be inferred, where nothing is declared.
fn empty_inference_fault(specs: &[Spec], declarators: &[InitDeclarator]) -> Option<Fault>
    ensures { result ≡ m.empty_inference_fault (w.words_of (specs_items specs.now)) (init_declarators_of declarators.now) }
{
    match declarators.split_first() {
        Some(_) => None,
        None => {
            if has_auto_word(specs) && !has_type_specifier(specs) {
                fault_at(first_place(specs), EMPTY_INFERENCE)
            } else {
                None
            }
        }
    }
}

/// What the list gives beside the faults that the declarators show.
#[tactic(auto, using(check_base::proofs::BesideLaws::answers_beside))]
fn beside_declarators(
    alloc: Global,
    context: Context,
    specs: &[Spec],
    declarators: &[InitDeclarator],
    parts: Result<Option<CType>, CheckError>,
    shown: Option<Fault>,
) -> Result<Specified, CheckError>
    ensures { AnswersShown context specs.now declarators.now parts shown result }
{
    let empty = empty_inference_fault(specs, declarators);
    let made = specifiers(alloc, context, specs, parts);
    with_fault(empty, with_fault(shown, made))
}

/// The same, where the parts gave a type or none.
fn with_given(
    alloc: Global,
    context: Context,
    specs: &[Spec],
    declarators: &[InitDeclarator],
    given: Option<CType>,
) -> Result<Specified, CheckError>
    ensures { (s : State) → AnswersPart context specs.now declarators.now (gives given s) s result }
{
    let shown = block_function_fault(context, specs, given.as_ref(), declarators);
    beside_declarators(alloc, context, specs, declarators, Ok(given), shown)
}

/// The same, where the parts are faulty.
fn with_fault_given(
    alloc: Global,
    context: Context,
    specs: &[Spec],
    declarators: &[InitDeclarator],
    fault: Fault,
) -> Result<Specified, CheckError>
    ensures { (s : State) → AnswersPart context specs.now declarators.now (Err fault) s result }
{
    let shown = block_function_fault(context, specs, None, declarators);
    beside_declarators(
        alloc,
        context,
        specs,
        declarators,
        Err(CheckError::Fault(fault)),
        shown,
    )
}

/// The same, where the parts are refused.
fn with_refusal(
    alloc: Global,
    context: Context,
    specs: &[Spec],
    declarators: &[InitDeclarator],
    e: CheckError,
) -> Result<Specified, CheckError>
    ensures { AnswersRefused context specs.now declarators.now e result }
{
    match e {
        CheckError::Fault(fault) => with_fault_given(alloc, context, specs, declarators, fault),
        CheckError::Limit(hit) => Err(CheckError::Limit(hit)),
        CheckError::NotBuilt(place) => Err(CheckError::NotBuilt(place)),
        CheckError::NoMemory => Err(CheckError::NoMemory),
    }
}

/// What the specifiers of a declaration with these declarators give, as `specifiers`. C31 and C48 besides.
pub fn declaration_specifiers(
    alloc: Global,
    context: Context,
    specs: &[Spec],
    declarators: &[InitDeclarator],
    parts: Result<Option<CType>, CheckError>,
) -> Result<Specified, CheckError>
    ensures { AnswersDeclaration context specs.now declarators.now parts result }
{
    match parts {
        Ok(given) => with_given(alloc, context, specs, declarators, given),
        Err(e) => with_refusal(alloc, context, specs, declarators, e),
    }
}

//! The type and the words of storage that a list of specifiers gives (ISO/IEC 9899:2024, 6.7.1, 6.7.3).
ghost use Rattle.std.specs.Prelude.{◌≡◌, Option, Some, None, Ok, IfOk, IfErr};
ghost use Rattle.c_tree.specs.SyntaxViews.{specs_items};
ghost use Rattle.model_types.specs.Types.{CType};
ghost use Rattle.model_checking.specs.State.{State, Answer};
ghost use Rattle.model_checking.specs.Words as w;
ghost use Rattle.model_checking.specs.SpecifierTypes as m;
ghost use Rattle.check_base.specs.Broken.{Broken};
ghost use Rattle.check_base.specs.Answers.{Answers, made_beside};
ghost use Rattle.check_specifiers.specs.Contexts.{context_of};
ghost use Rattle.check_specifiers.specs.Storages.{storage_in};
ghost use Rattle.check_specifiers.specs.ListAnswers.{AnswersGiven};
ghost use Rattle.check_specifiers.specs.SpecifiedTypes.{specified_of, as_specified, qualified_as};

use crate::contexts::Context;
use crate::keywords::type_by_words;
use crate::qualifiers::{qualified, qualifier_fault};
use crate::whole_lists::{qualifiers_of, words_fault};
use crate::words::{Storage, storage_of};
use c_tree::Spec;
use c_types::CType;
use cake_base::{Fault, NoMemory};
use check_base::{CheckError, refusal_beside};
use check_types::plain;
use model_grammar::syntax::Qualifier;
use std::alloc::Global;

/// What specifiers give: a type, but where it is to be inferred, and the words of storage.
#[derive(Drop)]
pub struct Specified {
    pub ty: Option<CType>,
    pub storage: Storage,
}

/// The type that keywords name, where they name one.
fn type_of_keywords(alloc: Global, specs: &[Spec]) -> Result<Option<CType>, NoMemory>
    ensures { IfOk result (λ made. made ≡ m.type_or_words None (w.words_of (specs_items specs.now))) }
{
    match type_by_words(specs) {
        Some(form) => Ok(Some(plain(alloc, form)?)),
        None => Ok(None),
    }
}

/// The type that some specifier gave, else that of the keywords; none where it is to be inferred.
pub fn type_or_words(
    alloc: Global,
    given: Option<CType>,
    specs: &[Spec],
) -> Result<Option<CType>, NoMemory>
    ensures { IfOk result (λ made. made ≡ m.type_or_words given (w.words_of (specs_items specs.now))) }
{
    match given {
        Some(ty) => Ok(Some(ty)),
        None => type_of_keywords(alloc, specs),
    }
}

/// A type with the qualifiers of a list, whose words of storage these are. C29 as of `qualifier_fault`.
fn with_qualifiers(
    alloc: Global,
    qualifiers: &[Qualifier],
    ty: &CType,
    storage: Storage,
) -> Result<Specified, CheckError>
    ensures ok { IfOk result (λ made. qualified_as qualifiers.now ty.now (storage_in storage) ≡ Ok (specified_of made)) }
    ensures err { IfErr result (λ e. Broken e (qualified_as qualifiers.now ty.now (storage_in storage))) }
{
    match qualifier_fault(qualifiers, ty) {
        Some(fault) => Err(CheckError::Fault(fault)),
        None => {
            let ty = Some(qualified(alloc, qualifiers, ty)?);
            Ok(Specified { ty, storage })
        }
    }
}

/// What a list gives whose type is known.
fn with_type(alloc: Global, ty: &CType, specs: &[Spec]) -> Result<Specified, CheckError>
    ensures ok { IfOk result (λ made. m.specified_by (w.words_of (specs_items specs.now)) (Some ty.now) ≡ Ok (specified_of made)) }
    ensures err { IfErr result (λ e. Broken e (m.specified_by (w.words_of (specs_items specs.now)) (Some ty.now))) }
{
    let qualifiers = qualifiers_of(alloc, specs)?;
    with_qualifiers(alloc, &qualifiers, ty, storage_of(specs))
}

/// What a list gives whose type this is, if it isn't to be inferred.
fn specified_by(alloc: Global, ty: Option<CType>, specs: &[Spec]) -> Result<Specified, CheckError>
    ensures ok { IfOk result (λ made. m.specified_by (w.words_of (specs_items specs.now)) ty ≡ Ok (specified_of made)) }
    ensures err { IfErr result (λ e. Broken e (m.specified_by (w.words_of (specs_items specs.now)) ty)) }
{
    match ty {
        None => Ok(Specified {
            ty: None,
            storage: storage_of(specs),
        }),
        Some(ty) => with_type(alloc, &ty, specs),
    }
}

/// What a list gives, given the type that one of its specifiers that is no keyword gave: this type, or that of its
/// keywords, with its qualifiers. C29 at its first qualifier of ownership, where they can't qualify the type.
pub fn specified_with(
    alloc: Global,
    given: Option<CType>,
    specs: &[Spec],
) -> Result<Specified, CheckError>
    ensures ok { IfOk result (λ made. m.specified given (w.words_of (specs_items specs.now)) ≡ Ok (specified_of made)) }
    ensures err { IfErr result (λ e. Broken e (m.specified given (w.words_of (specs_items specs.now)))) }
{
    let ty = type_or_words(alloc, given, specs)?;
    specified_by(alloc, ty, specs)
}

/// The same, where what the specifiers gave may be a refusal.
fn specified_if_any(
    alloc: Global,
    specs: &[Spec],
    parts: Result<Option<CType>, CheckError>,
) -> Result<Specified, CheckError>
    ensures { AnswersGiven specs.now parts result }
{
    match parts {
        Ok(given) => specified_with(alloc, given, specs),
        Err(e) => Err(e),
    }
}

/// What is made, beside a fault that is there whatever it is.
pub(crate) fn with_fault(
    fault: Option<Fault>,
    made: Result<Specified, CheckError>,
) -> Result<Specified, CheckError>
    ensures { as_specified result ≡ made_beside fault (as_specified made) }
{
    match made {
        Ok(made) => match fault {
            None => Ok(made),
            Some(fault) => {
                drop(made);
                Err(CheckError::Fault(fault))
            }
        },
        Err(e) => Err(refusal_beside(fault, e)),
    }
}

/// What a whole list gives: its words, beside what its specifiers that are no keywords gave one after another, or their
/// first fault. C27, C29 and C48 of its words.
pub fn specifiers(
    alloc: Global,
    context: Context,
    specs: &[Spec],
    parts: Result<Option<CType>, CheckError>,
) -> Result<Specified, CheckError>
    ensures { (due : Answer (Option CType)) (s : State) → Answers parts due s → Answers (as_specified result) (m.specifiers (context_of context) (specs_items specs.now) due) s }
{
    match words_fault(alloc, context, specs) {
        Ok(fault) => with_fault(fault, specified_if_any(alloc, specs, parts)),
        Err(NoMemory) => {
            drop(parts);
            Err(CheckError::NoMemory)
        }
    }
}

//! What the tree of a declarator shows of its steps without its parts (ISO/IEC 9899:2024, 6.7.7): it stands in their place
//! where a part before is faulty.
ghost use Rattle.std.specs.Prelude.{◌≡◌, [], ◌∷◌, ◌++◌, IfOk, OnOk};
ghost use Rattle.c_tree.specs.SyntaxTrees.{declarator_tree};
ghost use Rattle.c_tree.specs.SyntaxViews as v;
ghost use Rattle.model_checking.specs.Derivations as m;
ghost use Rattle.check_declarators.specs.Steps.{derivation_of, derivations_of};

use crate::derivations::{Derivation, Parameters};
use crate::pointers::with_pointers;
use c_tree::{Declarator, DeclaratorForm, Suffix};
use c_types::TypeList;
use cake_base::NoMemory;
use sqlite_items::Items;
use std::alloc::Global;

/// A function of so many parameters, of which nothing more is known.
fn outline_of_function(alloc: Global, count: usize, is_variadic: bool) -> Derivation
    ensures { derivation_of result ≡ m.a_faulty_function count [] is_variadic [] }
{
    let parameters = Parameters {
        types: TypeList::new(alloc),
        is_variadic,
        entries: Items::new(alloc),
    };
    Derivation::FaultyFunction { count, parameters }
}

#[tactic(auto, using(crate::proofs::StepLaws::parameters_counted))]
fn outline_of_suffix(alloc: Global, suffix: &Suffix) -> Derivation
    ensures { derivation_of result ≡ m.outline_of_suffix (v.suffix_of suffix.now) }
{
    match suffix {
        Suffix::Array { length: None, .. } => Derivation::Array { length: None },
        Suffix::Array {
            length: Some(_),
            ..
        } => Derivation::FaultyArray,
        Suffix::Function {
            parameters,
            is_variadic,
            ..
        } => outline_of_function(alloc, parameters.len(), *is_variadic),
    }
}

#[tactic(auto, using(crate::proofs::StepLaws::one_more))]
fn push_outline_of_suffix(
    alloc: Global,
    suffix: &Suffix,
    steps: &mut Items<Derivation>,
) -> Result<(), NoMemory>
    ensures { OnOk result (derivations_of steps.new ≡ derivations_of steps.old ++ m.outline_of_suffix (v.suffix_of suffix.now) ∷ []) }
{
    let derivation = outline_of_suffix(alloc, suffix);
    steps.push(derivation)?;
    Ok(())
}

/// What the tree shows of brackets and parentheses behind a declarator, behind other steps of it.
#[tactic(auto, using(crate::proofs::StepLaws::suffixes_from))]
pub fn push_outline_of_suffixes(
    alloc: Global,
    suffixes: &[Suffix],
    steps: &mut Items<Derivation>,
) -> Result<(), NoMemory>
    ensures { OnOk result (derivations_of steps.new ≡ derivations_of steps.old ++ m.outline_of_suffixes (v.suffixes_of suffixes.now)) }
{
    for suffix in suffixes {
        push_outline_of_suffix(alloc, suffix, steps)?;
    }
    Ok(())
}

#[tactic(auto, using(crate::proofs::StepLaws::pointers_behind, crate::proofs::StepLaws::grouped_behind))]
fn push_outline(
    alloc: Global,
    declarator: &Declarator,
    steps: &mut Items<Derivation>,
) -> Result<(), NoMemory>
    ensures { OnOk result (derivations_of steps.new ≡ derivations_of steps.old ++ m.outline (declarator_tree declarator.now)) }
{
    match declarator.form() {
        DeclaratorForm::Named {
            pointers,
            suffixes,
            ..
        } => {
            push_outline_of_suffixes(alloc, suffixes.as_slice(), steps)?;
            with_pointers(alloc, pointers.as_slice(), steps)
        }
        DeclaratorForm::Unnamed { pointers, suffixes } => {
            push_outline_of_suffixes(alloc, suffixes.as_slice(), steps)?;
            with_pointers(alloc, pointers.as_slice(), steps)
        }
        DeclaratorForm::Grouped {
            pointers,
            inner,
            suffixes,
            ..
        } => {
            push_outline(alloc, inner, steps)?;
            push_outline_of_suffixes(alloc, suffixes.as_slice(), steps)?;
            with_pointers(alloc, pointers.as_slice(), steps)
        }
    }
}

/// What the tree of a declarator shows of its steps.
pub fn outline(alloc: Global, declarator: &Declarator) -> Result<Items<Derivation>, NoMemory>
    ensures { IfOk result (λ steps. derivations_of steps ≡ m.outline (declarator_tree declarator.now)) }
{
    let mut steps = Items::new(alloc);
    push_outline(alloc, declarator, &mut steps)?;
    Ok(steps)
}

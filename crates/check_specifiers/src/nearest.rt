//! The step of a declarator that stands next to its name, as its tree shows it (ISO/IEC 9899:2024, 6.7.7).
ghost use Rattle.std.specs.Prelude.{◌≡◌};
ghost use Rattle.std.specs.Option.{option_copied};
ghost use Rattle.c_tree.specs.SyntaxTrees.{declarator_tree};
ghost use Rattle.c_tree.specs.SyntaxViews as v;
ghost use Rattle.model_checking.specs.Derivations as d;
ghost use Rattle.model_checking.specs.DeclaredNames as m;
ghost use Rattle.check_specifiers.specs.NearestSteps as n;

use crate::forms::is_function;
use c_tree::{Declarator, DeclaratorForm, Suffix};
use c_types::CType;
use model_grammar::syntax::Pointer;

/// The step next to a declarator's name.
#[derive(Clone, Copy)]
pub(crate) enum Nearest {
    /// There is none.
    Nothing,
    /// A function, with the number of its parameters, and whether `...` stands behind them.
    Function { count: usize, is_variadic: bool },
    /// A pointer or an array.
    Other,
}

impl Nearest {
    fn or(self, behind: Nearest) -> Nearest
        ensures { result ≡ n.or_nearest self behind }
    {
        match self {
            Nearest::Nothing => behind,
            Nearest::Function { count, is_variadic } => Nearest::Function { count, is_variadic },
            Nearest::Other => Nearest::Other,
        }
    }
}

#[tactic(auto, using(crate::proofs::NearestLaws::function_is_nearest))]
fn nearest_of_suffix(suffix: &Suffix) -> Nearest
    ensures { result ≡ n.nearest_of (d.outline_of_suffix (v.suffix_of suffix.now)) }
{
    match suffix {
        Suffix::Array { length: None, .. } => Nearest::Other,
        Suffix::Array {
            length: Some(_),
            ..
        } => Nearest::Other,
        Suffix::Function {
            parameters,
            is_variadic,
            ..
        } => Nearest::Function {
            count: parameters.as_slice().len(),
            is_variadic: *is_variadic,
        },
    }
}

fn nearest_of_suffixes(suffixes: &[Suffix]) -> Nearest
    ensures { result ≡ n.nearest (d.outline_of_suffixes (v.suffixes_of suffixes.now)) }
{
    match suffixes.split_first() {
        Some((suffix, _)) => nearest_of_suffix(suffix),
        None => Nearest::Nothing,
    }
}

fn nearest_of_pointers(pointers: &[Pointer]) -> Nearest
    ensures { result ≡ n.nearest_pointer pointers.now }
{
    match pointers.split_first() {
        Some(_) => Nearest::Other,
        None => Nearest::Nothing,
    }
}

/// The step of a declarator that stands next to its name.
#[tactic(auto, using(crate::proofs::NearestLaws::pointers_behind, crate::proofs::NearestLaws::one_or_other))]
fn nearest_step(declarator: &Declarator) -> Nearest
    ensures { result ≡ n.nearest (d.outline (declarator_tree declarator.now)) }
{
    match declarator.form() {
        DeclaratorForm::Named {
            pointers,
            suffixes,
            ..
        } => nearest_of_suffixes(suffixes.as_slice()).or(nearest_of_pointers(pointers.as_slice())),
        DeclaratorForm::Unnamed { pointers, suffixes } => {
            nearest_of_suffixes(suffixes.as_slice()).or(nearest_of_pointers(pointers.as_slice()))
        }
        DeclaratorForm::Grouped {
            pointers,
            inner,
            suffixes,
            ..
        } => nearest_step(inner)
            .or(nearest_of_suffixes(suffixes.as_slice()))
            .or(nearest_of_pointers(pointers.as_slice())),
    }
}

/// Whether a declarator is that of a function (6.7.7.4).
#[tactic(auto, using(crate::proofs::NearestLaws::function_by_nearest))]
pub fn is_function_declarator(declarator: &Declarator) -> bool
    ensures { result ≡ d.is_function_declarator (declarator_tree declarator.now) }
{
    match nearest_step(declarator) {
        Nearest::Nothing => false,
        Nearest::Function { .. } => true,
        Nearest::Other => false,
    }
}

/// Whether a declarator is that of a function with `...` behind its parameters.
#[tactic(auto, using(crate::proofs::NearestLaws::variadic_by_nearest))]
pub fn is_variadic_declarator(declarator: &Declarator) -> bool
    ensures { result ≡ d.is_variadic_declarator (declarator_tree declarator.now) }
{
    match nearest_step(declarator) {
        Nearest::Nothing => false,
        Nearest::Function { is_variadic, .. } => is_variadic,
        Nearest::Other => false,
    }
}

/// The number of parameters that the tree of a declarator of a function shows.
#[tactic(auto, using(crate::proofs::NearestLaws::count_by_nearest))]
pub fn own_parameter_count(declarator: &Declarator) -> usize
    ensures { result ≡ d.own_parameter_count (declarator_tree declarator.now) }
{
    match nearest_step(declarator) {
        Nearest::Nothing => 0,
        Nearest::Function { count, .. } => count,
        Nearest::Other => 0,
    }
}

fn is_function_if_any(ty: Option<&CType>) -> bool
    ensures { result ≡ m.is_function_if_any (option_copied ty.entry) }
{
    match ty {
        Some(ty) => is_function(ty),
        None => false,
    }
}

/// Whether what is declared is a function, given the type of the specifiers where it is known: the declarator is one's,
/// or adds nothing to a function type.
#[tactic(auto, using(crate::proofs::NearestLaws::declares_by_nearest))]
pub fn declares_function(given: Option<&CType>, declarator: &Declarator) -> bool
    ensures { result ≡ m.declares_function (option_copied given.entry) (declarator_tree declarator.now) }
{
    match nearest_step(declarator) {
        Nearest::Nothing => is_function_if_any(given),
        Nearest::Function { .. } => true,
        Nearest::Other => false,
    }
}

//! What a declarator derives from the type of its specifiers, step by step from its name outwards (ISO/IEC 9899:2024, 6.7.7).
ghost use Rattle.std.specs.Prelude.{◌≡◌, [], ◌∷◌};
ghost use Rattle.model_checking.specs.Derivations as m;
ghost use Rattle.check_declarators.specs.Steps.{derivation_of, derivations_of};

use c_types::TypeList;
use cake_base::Fault;
use decl_scope::Entry;
use model_grammar::syntax::Qualifier;
use sqlite_items::Items;
use std::alloc::Global;

/// The parameters of a function: their types, whether more may follow, and what is declared in their scope.
#[derive(Drop)]
pub struct Parameters {
    pub types: TypeList,
    pub is_variadic: bool,
    pub entries: Items<Entry>,
}

/// One step of a declarator.
#[derive(Drop)]
pub enum Derivation {
    /// A pointer, with the qualifiers behind its `*`.
    Pointer {
        qualifiers: Items<Qualifier>,
    },
    /// An array, with its length where it has one.
    Array {
        length: Option<u64>,
    },
    Function {
        parameters: Parameters,
    },
    /// An array whose length is faulty.
    FaultyArray,
    /// A function of so many parameters of which one is faulty, with those before it.
    FaultyFunction {
        count: usize,
        parameters: Parameters,
    },
}

/// The steps of a declarator, and its first fault, behind which is only what the tree shows.
#[derive(Drop)]
pub struct Steps {
    pub steps: Items<Derivation>,
    pub fault: Option<Fault>,
}

fn is_function(derivation: &Derivation) -> bool
    ensures { result ≡ m.is_function_step (derivation_of derivation.now ∷ []) }
{
    match derivation {
        Derivation::Pointer { .. } => false,
        Derivation::Array { .. } => false,
        Derivation::Function { .. } => true,
        Derivation::FaultyArray => false,
        Derivation::FaultyFunction { .. } => true,
    }
}

/// Whether the step next to the name is that of a function.
#[tactic(auto, using(crate::proofs::StepLaws::function_by_first))]
pub fn is_function_step(steps: &[Derivation]) -> bool
    ensures { result ≡ m.is_function_step (derivations_of steps.now) }
{
    match steps.split_first() {
        Some((nearest, _)) => is_function(nearest),
        None => false,
    }
}

/// What is declared in the scope of the parameters of a step; nothing where it is that of no function.
fn entries_in(alloc: Global, derivation: Derivation) -> Items<Entry>
    ensures { result ≡ m.entries_of (derivation_of derivation ∷ []) }
{
    match derivation {
        Derivation::Pointer { qualifiers } => {
            drop(qualifiers);
            Items::new(alloc)
        }
        Derivation::Array { .. } => Items::new(alloc),
        Derivation::Function { parameters } => parameters.entries,
        Derivation::FaultyArray => Items::new(alloc),
        Derivation::FaultyFunction { parameters, .. } => parameters.entries,
    }
}

/// What is declared in the scope of a declarator's own parameters; nothing where it is that of no function (6.7.7.4).
#[tactic(auto, using(crate::proofs::StepLaws::entries_by_first))]
pub fn own_entries(alloc: Global, steps: Items<Derivation>) -> Items<Entry>
    ensures { result ≡ m.entries_of (derivations_of steps) }
{
    let mut steps = steps;
    if steps.len() == 0 {
        Items::new(alloc)
    } else {
        let nearest = steps.remove(0);
        drop(steps);
        entries_in(alloc, nearest)
    }
}

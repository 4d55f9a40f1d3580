//! Parameters of type void in the steps of a declarator (ISO/IEC 9899:2024, 6.7.7.4).
ghost use Rattle.std.specs.Prelude.{◌≡◌, [], ◌∷◌};
ghost use Rattle.model_checking.specs.Derivations.{entries_of};
ghost use Rattle.model_checking.specs.DeclaratorTypes as m;
ghost use Rattle.check_declarators.specs.Steps.{derivation_of, derivations_of};
ghost use Rattle.check_declarators.specs.DeclaredViews.{declared_of};

use crate::declared::Declared;
use crate::derivations::Derivation;
use cake_base::Fault;
use check_base::first_of_faults;
use check_tags::void_fault;

fn void_fault_of(derivation: &Derivation) -> Option<Fault>
    ensures { result ≡ m.void_fault (entries_of (derivation_of derivation.now ∷ [])) }
{
    match derivation {
        Derivation::Pointer { .. } => None,
        Derivation::Array { .. } => None,
        Derivation::Function { parameters } => void_fault(parameters.entries.as_slice()),
        Derivation::FaultyArray => None,
        Derivation::FaultyFunction { parameters, .. } => void_fault(parameters.entries.as_slice()),
    }
}

/// C28 at the first parameter of type void in steps.
#[tactic(auto, using(crate::proofs::StepLaws::voids_from))]
pub fn void_faults(steps: &[Derivation]) -> Option<Fault>
    ensures { result ≡ m.void_faults (derivations_of steps.now) }
{
    let mut fault = None;
    for at in (0..steps.len()).rev() {
        fault = first_of_faults(void_fault_of(&steps[at]), fault);
    }
    fault
}

/// The same without the step next to the name: a declarator's own parameters are asked where it is known whether it is that
/// of a definition.
pub fn inner_void_faults(steps: &[Derivation]) -> Option<Fault>
    ensures { result ≡ m.inner_void_faults (derivations_of steps.now) }
{
    match steps.split_first() {
        Some((_, others)) => void_faults(others),
        None => None,
    }
}

/// C28 at the first own parameter of type void, of a declarator that is that of no definition.
pub fn own_parameters_fault(declared: &Declared) -> Option<Fault>
    ensures { result ≡ m.own_parameters_fault (declared_of declared.now) }
{
    void_fault(declared.parameters.as_slice())
}

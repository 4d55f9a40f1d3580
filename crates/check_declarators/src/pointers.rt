//! The `*` of a declarator (ISO/IEC 9899:2024, 6.7.7.2).
ghost use Rattle.std.specs.Prelude.{◌≡◌, [], ◌∷◌, ◌++◌, OnOk};
ghost use Rattle.model_checking.specs.Derivations as m;
ghost use Rattle.check_declarators.specs.Steps.{derivations_of};

use crate::derivations::Derivation;
use cake_base::NoMemory;
use model_grammar::syntax::Pointer;
use sqlite_items::Items;
use std::alloc::Global;

#[tactic(auto, using(crate::proofs::StepLaws::one_more))]
fn push_pointer(
    alloc: Global,
    pointer: &Pointer,
    steps: &mut Items<Derivation>,
) -> Result<(), NoMemory>
    ensures { OnOk result (derivations_of steps.new ≡ derivations_of steps.old ++ m.a_pointer pointer.now.qualifiers ∷ []) }
{
    let qualifiers = Items::from_slice(alloc, pointer.qualifiers.as_slice())?;
    steps.push(Derivation::Pointer { qualifiers })?;
    Ok(())
}

/// The `*` before a declarator behind the steps of it: the first is the last step.
#[tactic(auto, using(crate::proofs::StepLaws::pointers_from))]
pub fn with_pointers(
    alloc: Global,
    pointers: &[Pointer],
    steps: &mut Items<Derivation>,
) -> Result<(), NoMemory>
    ensures { OnOk result (derivations_of steps.new ≡ m.with_pointers pointers.now (derivations_of steps.old)) }
{
    for at in (0..pointers.len()).rev() {
        push_pointer(alloc, &pointers[at], steps)?;
    }
    Ok(())
}

//! Laws of the programs that units are lowered to (ISO/IEC 9899:1990, 6.3, 6.6).
ghost use Rattle.c_model.specs.Renamed.{Naming};
ghost use Rattle.model_core.specs.Core.{Core};
ghost use Rattle.model_c89.specs.Flat89.{Flat};
ghost use Rattle.model_lowering.specs.LoweredUnit.{lowered_with};

/// No statement of a program that a unit is lowered to holds a call beside its own, whatever the names.
#[tactic(auto, using(crate::proofs::FlatPrograms::lowered_is_flat))]
pub fn lowered_is_flat()
    ensures { (n : Naming) (core : Core) → Flat (lowered_with n core) }
{}

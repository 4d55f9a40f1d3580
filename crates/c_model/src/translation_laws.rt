//! Laws of what a unit shares with its text, and with another unit: each function does nothing, and its
//! contract is the law.
ghost use Rattle.std.specs.Prelude.{◌≡◌, pos, true, []};
ghost use Rattle.model_types.specs.Types.{Integer};
ghost use Rattle.model_types.specs.declared.numbers.Basic.TheVariants as basic;
ghost use Rattle.model_core.specs.Core.{Core};
ghost use Rattle.model_core.specs.Program89.{Program, no_stats};
ghost use Rattle.model_core.specs.TypedCore.{is_typed_core};
ghost use Rattle.model_runs.specs.Memory.{Single, Number};
ghost use Rattle.model_runs.specs.Run.{Returned, run_of};
ghost use Rattle.model_c89.specs.Typing89.{is_typed};
ghost use Rattle.c_model.specs.Translation.{Exports, Same};
ghost use Rattle.c_model.specs.GivenBlocks.{SameFrom, SameStep};
ghost use Rattle.c_model.specs.TwoUnits.{SameRuns, SameExternals};
ghost use Rattle.c_model.specs.Renamed.{provisional};
ghost use Rattle.c_model.specs.Flattened.{Flattens};
ghost use Rattle.c_model.specs.ExampleFlattened.{sum, sum89};
ghost use Rattle.c_model.specs.ExampleExported.{exports_structure, exports_structures, structure_written, one_structure_written};
ghost use Rattle.c_model.specs.ExampleTexts.{long89};
ghost use Rattle.c_model.specs.ExampleGiven.{bumps, bumps_written, bumped, bumped89, exports_array, array_written, only_zeros};

/// What is the same from given blocks is the same.
pub fn same_from_is_same()
    ensures { (core : Core) (program : Program) → SameFrom core program → Same core program }
{}

/// What a unit shares with its text, one that runs as it does shares with that text too.
pub fn same_runs_carry()
    ensures from { (core other : Core) (program : Program) → SameRuns core other → SameExternals core other → SameFrom other program → SameFrom core program }
    ensures exports { (core other : Core) (program : Program) → SameExternals core other → Exports other program → Exports core program }
{}

/// A function that adds 2 to an int that it is given, in the unit and in its text.
pub fn given_int_is_changed_alike()
    ensures typed { is_typed_core bumps ≡ true }
    ensures typed_text { is_typed bumps_written ≡ true }
    ensures unit { (run_of bumped).ending ≡ Returned (Single (Number (pos 7))) }
    ensures same { SameStep (Integer basic.Int) bumped bumped89 }
{}

/// A text doesn't export an array that begins otherwise than the unit's.
pub fn exported_array_keeps_its_values()
    ensures typed { is_typed_core exports_array ≡ true }
    ensures zeros { Exports exports_array (array_written only_zeros) → ⊥ }
{}

/// A text doesn't give two exported structures one tag.
pub fn exported_structures_keep_their_tags()
    ensures typed { is_typed_core exports_structures ≡ true }
    ensures typed_text { is_typed one_structure_written ≡ true }
    ensures one_tag { Exports exports_structures one_structure_written → ⊥ }
{}

/// A text doesn't write an exported structure with a member of another type.
pub fn exported_structures_keep_their_members()
    ensures typed { is_typed_core exports_structure ≡ true }
    ensures typed_text { is_typed (structure_written long89) ≡ true }
    ensures long { Exports exports_structure (structure_written long89) → ⊥ }
{}

/// A sum of constants is flattened to the sum that C89 writes, behind no steps.
pub fn sum_is_flattened()
    ensures { Flattens provisional sum 0 [] no_stats sum89 }
{}

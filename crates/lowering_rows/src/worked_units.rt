//! Constants as they are written, and units with a string, a pointer to a function and static values.
ghost use Rattle.std.specs.Prelude.{◌≡◌, true, pos, negsuc, [], ◌∷◌, codes};
ghost use Rattle.model_types.specs.declared.numbers.Basic.TheVariants as basic;
ghost use Rattle.model_types.specs.declared.numbers.BinOp.TheVariants.{Sub};
ghost use Rattle.model_core.specs.TypedCore.{is_typed_core};
ghost use Rattle.model_core.specs.Program89 as text;
ghost use Rattle.model_runs.specs.Memory.{Single, Number};
ghost use Rattle.model_runs.specs.Run.{Returned};
ghost use Rattle.model_runs.specs.SourceRun.{run23};
ghost use Rattle.model_c89.specs.TargetRun.{run89};
ghost use Rattle.model_c89.specs.Typing89.{is_typed};
ghost use Rattle.model_c89.specs.Flat89.{Flat};
ghost use Rattle.model_c89.specs.TargetTypes.{basic_type};
ghost use Rattle.model_lowering.specs.TextValues.{integer};
ghost use Rattle.lowering_rows.specs.WorkedUnits as units;
ghost use Rattle.lowering_rows.specs.SampleNames.{lowered};

/// Constants of each size, the least of a type, and a type below int.
pub fn constants()
    ensures unsigned { integer basic.Unsigned (pos 2147483648) ≡ text.Constant 2147483648 text.U }
    ensures long { integer basic.Long (pos 2147483648) ≡ text.Constant 2147483648 text.L }
    ensures longer { integer basic.UnsignedLongLong (pos 5) ≡ text.Constant 5 text.UL }
    ensures negative { integer basic.Int (negsuc 4) ≡ text.Unary text.Minus (text.Constant 5 text.Plain) }
    ensures least { integer basic.Int (negsuc 2147483647) ≡ text.Binary Sub (text.Unary text.Minus (text.Constant 2147483647 text.Plain)) (text.Constant 1 text.Plain) }
    ensures small { integer basic.Char (pos 65) ≡ text.Cast (basic_type basic.Char) (text.Constant 65 text.Plain) }
{}

/// A string is a static array of the text.
pub fn text()
    ensures core { is_typed_core units.text ≡ true }
    ensures typed { is_typed (lowered units.text) ≡ true }
    ensures flat { Flat (lowered units.text) }
    ensures ends { (run23 50 units.text (codes "main") [] (pos 6 ∷ [])).ending ≡ Returned (Single (Number (pos 6))) }
    ensures runs { run89 50 (lowered units.text) (codes "main") [] (pos 6 ∷ []) ≡ run23 50 units.text (codes "main") [] (pos 6 ∷ []) }
{}

/// A call through a pointer to a function of the unit alone.
pub fn by_pointer()
    ensures core { is_typed_core units.by_pointer ≡ true }
    ensures typed { is_typed (lowered units.by_pointer) ≡ true }
    ensures flat { Flat (lowered units.by_pointer) }
    ensures ends { (run23 50 units.by_pointer (codes "main") [] []).ending ≡ Returned (Single (Number (pos 42))) }
    ensures runs { run89 50 (lowered units.by_pointer) (codes "main") [] [] ≡ run23 50 units.by_pointer (codes "main") [] [] }
{}

/// Static values up to the last one, with zeros between.
pub fn static_array()
    ensures core { is_typed_core units.static_array ≡ true }
    ensures typed { is_typed (lowered units.static_array) ≡ true }
    ensures flat { Flat (lowered units.static_array) }
    ensures ends { (run23 50 units.static_array (codes "main") [] []).ending ≡ Returned (Single (Number (pos 570))) }
    ensures runs { run89 50 (lowered units.static_array) (codes "main") [] [] ≡ run23 50 units.static_array (codes "main") [] [] }
{}

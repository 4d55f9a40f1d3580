//! Where units and their texts have to agree: each function does nothing, and its contract is what the
//! definitions answer.
ghost use Rattle.std.specs.Prelude.{◌≡◌, pos, true, false, [], ◌∷◌, codes, Ok, Err};
ghost use Rattle.model_types.specs.declared.numbers.Basic.TheVariants as basic;
ghost use Rattle.model_types.specs.declared.numbers.BinOp.TheVariants.{Sub, Less, GreaterEqual, Equal};
ghost use Rattle.model_types.specs.declared.outcomes.Cause.TheVariants as cause;
ghost use Rattle.model_core.specs.TypedCore.{is_typed_core, TypedCore};
ghost use Rattle.model_runs.specs.Memory.{Heap, Number, Address, Holds, Zeroes};
ghost use Rattle.model_runs.specs.Loads.{is_zero_at};
ghost use Rattle.model_runs.specs.Applied.{applied};
ghost use Rattle.model_runs.specs.SourceRun.{run23};
ghost use Rattle.model_c89.specs.Typing89.{is_typed};
ghost use Rattle.model_c89.specs.TargetRun.{run89};
ghost use Rattle.c_model.specs.Examples.{returned};
ghost use Rattle.c_model.specs.ExampleAgreed.{zeros_read_as_long, zeros_written, seven_as_bool, side_by_side, one_in_another, without_order, with_order};
ghost use Rattle.c_model.specs.ExamplePlaces.{two_at_one_place, operation_at_lvalue, added_behind_call, compared_functions, compared_pointers};
ghost use Rattle.c_model.specs.ExampleRealloc.{resizes, resizes_written, resizes_no_more, leaves};
ghost use Rattle.c_model.specs.ExampleStrings.{longer_array, literal, reads_element, reads_int, reads_element89, reads_int89};
ghost use Rattle.c_model.specs.Translation.{Same};

/// Zeros of static objects read as zero of any size, whether they are written or not.
pub fn static_zeros_agree()
    ensures typed { is_typed_core zeros_read_as_long ≡ true }
    ensures unit { run23 100 zeros_read_as_long (codes "main") [] [] ≡ returned [] 1 }
    ensures typed_text { is_typed zeros_written ≡ true }
    ensures text { run89 100 zeros_written (codes "main") [] [] ≡ returned [] 1 }
{}

/// Behind the bytes of a string its block reads as zero of any size, that of an array and that of a literal, in the
/// unit and in its text.
pub fn string_reads_zero_behind_its_bytes()
    ensures typed { is_typed_core (reads_element longer_array 2) ≡ true }
    ensures last_byte { run23 100 (reads_element longer_array 1) (codes "main") [] [] ≡ returned [] 98 }
    ensures zero { run23 100 (reads_element longer_array 2) (codes "main") [] [] ≡ returned [] 0 }
    ensures last_zero { run23 100 (reads_element longer_array 7) (codes "main") [] [] ≡ returned [] 0 }
    ensures int_of_zeros { run23 100 (reads_int longer_array) (codes "main") [] [] ≡ returned [] 0 }
    ensures typed_literal { is_typed_core (reads_element literal 2) ≡ true }
    ensures literal { run23 100 (reads_element literal 2) (codes "main") [] [] ≡ returned [] 0 }
    ensures typed_text { is_typed (reads_element89 8 2) ≡ true }
    ensures text_last_byte { run89 100 (reads_element89 8 1) (codes "main") [] [] ≡ returned [] 98 }
    ensures text_zero { run89 100 (reads_element89 8 2) (codes "main") [] [] ≡ returned [] 0 }
    ensures text_last_zero { run89 100 (reads_element89 8 7) (codes "main") [] [] ≡ returned [] 0 }
    ensures text_int_of_zeros { run89 100 (reads_int89 8) (codes "main") [] [] ≡ returned [] 0 }
    ensures text_literal { run89 100 (reads_element89 3 2) (codes "main") [] [] ≡ returned [] 0 }
{}

/// What a call with result bool gives is 0 or 1, also where a byte of the bool was 7.
pub fn called_bool_is_one()
    ensures typed { is_typed_core seven_as_bool ≡ true }
    ensures run { run23 100 seven_as_bool (codes "main") [] [] ≡ returned [] 1 }
{}

/// Blocks of a text that stand side by side may declare one name; one in another may not.
pub fn blocks_side_by_side_share_names()
    ensures beside { is_typed side_by_side ≡ true }
    ensures inside { is_typed one_in_another ≡ false }
    ensures run { run89 100 side_by_side (codes "main") [] [] ≡ returned [] 0 }
{}

/// The structures of a core can stand in an order in which elements of arrays and members come first.
pub fn structures_have_an_order()
    ensures order { is_typed_core with_order ≡ true }
    ensures none { is_typed_core without_order ≡ false }
{}

/// A difference of pointers is a `long`, or undefined.
pub fn far_pointers_overflow()
    ensures near { applied Sub basic.Int 1 (Address (Heap 1) (pos 9223372036854775807)) (Address (Heap 1) (pos 0)) ≡ Ok (Number (pos 9223372036854775807)) }
    ensures far { applied Sub basic.Int 1 (Address (Heap 1) (pos 9223372036854775808)) (Address (Heap 1) (pos 0)) ≡ Err cause.Overflow }
{}

/// A byte is zero where some cell of zeros has it.
pub fn some_zero_cell_is_enough()
    ensures { is_zero_at (record { offset = 0; size = 4; content = Holds (Number (pos 5)) } ∷ record { offset = 0; size = 8; content = Zeroes } ∷ []) 0 ≡ true }
{}

/// Two lvalues of a typed core don't stand at one place, unless they are one.
pub fn places_tell_lvalues_apart()
    ensures parts { is_typed_core two_at_one_place ≡ true }
    ensures places { TypedCore two_at_one_place → ⊥ }
{}

/// No operation of a typed core stands where an lvalue does.
pub fn places_tell_operations_from_lvalues()
    ensures parts { is_typed_core operation_at_lvalue ≡ true }
    ensures places { TypedCore operation_at_lvalue → ⊥ }
{}

/// A compound assignment loads behind its right side.
pub fn compound_assignment_loads_last()
    ensures typed { is_typed_core added_behind_call ≡ true }
    ensures run { run23 100 added_behind_call (codes "main") [] [] ≡ returned [] 15 }
{}

/// Pointers to functions are equal or not, and have no order.
pub fn functions_have_no_order()
    ensures equal { is_typed_core (compared_functions Equal) ≡ true }
    ensures less { is_typed_core (compared_functions Less) ≡ false }
    ensures not_less { is_typed_core (compared_functions GreaterEqual) ≡ false }
    ensures objects { is_typed_core (compared_pointers Less) ≡ true }
{}

/// A call of `realloc` leaves, in the unit and in its text, and a text that leaves it out isn't the same.
pub fn realloc_leaves()
    ensures typed { is_typed_core resizes ≡ true }
    ensures unit { run23 100 resizes (codes "main") [] (pos 1 ∷ []) ≡ leaves }
    ensures typed_text { is_typed resizes_written ≡ true }
    ensures text { run89 100 resizes_written (codes "main") [] (pos 1 ∷ []) ≡ leaves }
    ensures left_out { Same resizes resizes_no_more → ⊥ }
{}

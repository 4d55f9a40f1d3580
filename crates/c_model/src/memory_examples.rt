//! What is read of small blocks, which the checker computes: each function does nothing, and its
//! contract is what loads and calls give.
ghost use Rattle.std.specs.Prelude.{◌≡◌, ℤ, pos, negsuc, [], ◌∷◌, None, Ok, Err};
ghost use Rattle.model_types.specs.declared.numbers.Basic.TheVariants as basic;
ghost use Rattle.model_types.specs.declared.numbers.BinOp.TheVariants.{Add, Sub, Less, Equal};
ghost use Rattle.model_types.specs.declared.outcomes.Cause.TheVariants as cause;
ghost use Rattle.model_runs.specs.Memory.{Heap, Number, Null, Address, Single, fresh, zeroed};
ghost use Rattle.model_types.specs.Shapes.{IntegerShape, PointerShape};
ghost use Rattle.model_runs.specs.Loads.{load};
ghost use Rattle.model_runs.specs.Stores.{store};
ghost use Rattle.model_runs.specs.Applied.{applied};
ghost use Rattle.model_runs.specs.Run.{Returned, Undefined};
ghost use Rattle.model_runs.specs.SourceStart.{text_contents};
ghost use Rattle.c_model.specs.ExampleParts.{int_value};
ghost use Rattle.c_model.specs.ExampleMemory.{int_shape, char_shape, heap_block, holding, with_five, zeros_with_seven, closed_once, closed_twice, opened, closed};

/// A load wants what was stored there, of its size and kind, in a block that lives.
pub fn loads_want_what_was_stored()
    ensures same { load with_five int_shape heap_block (pos 0) ≡ Ok (int_value 5) }
    ensures unsigned { load with_five (IntegerShape basic.Unsigned) heap_block (pos 0) ≡ Ok (int_value 5) }
    ensures smaller { load with_five char_shape heap_block (pos 0) ≡ Err cause.Kind }
    ensures behind { load with_five int_shape heap_block (pos 4) ≡ Err cause.Uninitialised }
    ensures across { load with_five int_shape heap_block (pos 2) ≡ Err cause.Kind }
    ensures before { load with_five int_shape heap_block (negsuc 0) ≡ Err cause.Outside }
    ensures past { load with_five int_shape heap_block (pos 5) ≡ Err cause.Outside }
    ensures dead { load with_five int_shape (Heap 2) (pos 0) ≡ Err cause.Dead }
{}

/// Zeros read as 0 and null of any size, as far as nothing else was stored there.
pub fn zeros_read_as_zero()
    ensures whole { load (holding (zeroed 8)) (IntegerShape basic.Long) heap_block (pos 0) ≡ Ok (int_value 0) }
    ensures pointer { load (holding (zeroed 8)) PointerShape heap_block (pos 0) ≡ Ok (Single Null) }
    ensures char { load zeros_with_seven char_shape heap_block (pos 1) ≡ Ok (int_value 7) }
    ensures before { load zeros_with_seven char_shape heap_block (pos 0) ≡ Ok (int_value 0) }
    ensures behind { load zeros_with_seven int_shape heap_block (pos 4) ≡ Ok (int_value 0) }
    ensures across { load zeros_with_seven int_shape heap_block (pos 0) ≡ Err cause.Kind }
{}

/// A string literal isn't written to.
pub fn string_is_read_only()
    ensures { store (holding (text_contents (97 ∷ []))) char_shape heap_block (pos 0) (int_value 98) ≡ Err cause.ReadOnly }
{}

/// Pointers move by elements; there is no sum with null, and no order of different blocks.
pub fn pointers_move_by_elements()
    ensures sum { applied Add basic.Int 4 (Address (Heap 1) (pos 8)) (Number (pos 2)) ≡ Ok (Address (Heap 1) (pos 16)) }
    ensures difference { applied Sub basic.Int 4 (Address (Heap 1) (pos 16)) (Address (Heap 1) (pos 8)) ≡ Ok (Number (pos 2)) }
    ensures null { applied Add basic.Int 4 Null (Number (pos 0)) ≡ Err cause.Null }
    ensures order { applied Less basic.Int 4 (Address (Heap 1) (pos 0)) (Address (Heap 2) (pos 4)) ≡ Err cause.Apart }
    ensures equal { applied Equal basic.Int 4 (Address (Heap 1) (pos 0)) (Address (Heap 2) (pos 0)) ≡ Ok (Number (pos 0)) }
{}

/// A file that is opened is closed once; closing it again is a bad release, and no event.
pub fn file_is_closed_once()
    ensures once { closed_once ≡ record { events = opened ∷ closed ∷ []; moves = []; ending = Returned (int_value 0) } }
    ensures twice { closed_twice ≡ record { events = opened ∷ closed ∷ []; moves = []; ending = Undefined cause.BadRelease None } }
{}

//! Compound literals, and what initializers leave in the state.
ghost use Rattle.std.specs.Prelude.{◌≡◌, pos, true, false, [], ◌∷◌, Some, None};
ghost use Rattle.model_types.specs.Types.{Function, no_types};
ghost use Rattle.model_core.specs.CoreTypes.{plain, int_type};
ghost use Rattle.model_checking.specs.State.{Evaluated, Unevaluated};
ghost use Rattle.model_checking.specs.ScalarCounts.{scalar_count, has_too_many};
ghost use Rattle.model_checking.specs.CompoundLiterals.{literal_fault};
ghost use Rattle.checking_rows.specs.InitializerParts.{at, broken, array, unsized, char_type, void_type, const_char_pointer, structure, point, grid, structures};
ghost use Rattle.checking_rows.specs.InitializerAnswers.{before, value_at, number_is, held_by, address_of};
ghost use Rattle.checking_rows.specs.InitializerLiterals.{each_time, static_object, breaks, literal_outcome, seen, objects, automatic, limit, at_file_scope, with_string, limited_at};
ghost use Rattle.checking_rows.specs.InitializerLiterals as rows;

/// A literal in a block is one of its automatic objects, where it is evaluated.
pub fn literals_in_blocks()
    ensures two_numbers { literal_outcome (rows.two_numbers Evaluated before)
        ≡ each_time 7 (array 2 int_type) (value_at (0 ∷ []) 0 (number_is (pos 1)) ∷ value_at (1 ∷ []) 4 (number_is (pos 2)) ∷ []) }
    ensures object { objects (rows.two_numbers Evaluated before) ≡ Some (seen 7 true None ∷ []) }
    ensures automatic { automatic (rows.two_numbers Evaluated before) ≡ Some (7 ∷ []) }
    ensures measured { objects (rows.two_numbers Unevaluated before) ≡ Some (seen 7 false None ∷ []) }
    ensures measured_in_no_block { automatic (rows.two_numbers Unevaluated before) ≡ Some [] }
    ensures zeros { literal_outcome (rows.one_of_two Evaluated before)
        ≡ each_time 7 (array 2 int_type) (value_at (0 ∷ []) 0 (number_is (pos 1)) ∷ value_at (1 ∷ []) 4 (number_is (pos 0)) ∷ []) }
    ensures loaded { literal_outcome (rows.loaded_number Evaluated before) ≡ each_time 7 (array 1 int_type) (value_at (0 ∷ []) 0 (held_by 1) ∷ []) }
{}

/// A literal at file scope is an object of static storage.
pub fn literals_at_file_scope()
    ensures one_of_two { literal_outcome (rows.one_of_two Evaluated at_file_scope) ≡ static_object 40 (array 2 int_type) }
    ensures object { objects (rows.one_of_two Evaluated at_file_scope) ≡ Some (seen 40 true (Some (value_at (0 ∷ []) 0 (number_is (pos 1)) ∷ [])) ∷ []) }
    ensures in_no_block { automatic (rows.one_of_two Evaluated at_file_scope) ≡ Some [] }
    ensures loaded { literal_outcome (rows.loaded_number Evaluated at_file_scope) ≡ breaks 23 6 }
{}

/// The type of a literal is complete, or gets its length.
pub fn types_of_literals()
    ensures complete { literal_fault structures (at 1) point ≡ None }
    ensures without_length { literal_fault structures (at 1) (unsized int_type) ≡ None }
    ensures no_object { literal_fault structures (at 1) void_type ≡ Some (broken 22 1) }
    ensures function { literal_fault structures (at 1) (plain (Function int_type no_types false)) ≡ Some (broken 22 1) }
    ensures incomplete { literal_fault structures (at 1) (structure 9) ≡ Some (broken 22 1) }
    ensures no_numbers { literal_outcome (rows.no_numbers Evaluated before) ≡ breaks 22 1 }
    ensures far_number { literal_outcome (rows.far_number Evaluated before) ≡ breaks 25 1 }
    ensures three_numbers { literal_outcome (rows.three_numbers Evaluated before) ≡ breaks 33 9 }
{}

/// A string that fills an array has no object.
pub fn strings_in_arrays()
    ensures in_array { objects (rows.string_in_array Evaluated (with_string before)) ≡ Some (seen 7 true None ∷ []) }
    ensures for_pointer { objects (rows.string_for_pointer Evaluated (with_string before)) ≡ Some (seen 21 true None ∷ seen 7 true None ∷ []) }
    ensures its_address { literal_outcome (rows.string_for_pointer Evaluated (with_string before)) ≡ each_time 7 (array 1 const_char_pointer) (value_at (0 ∷ []) 0 (address_of 21) ∷ []) }
{}

/// Too many scalars: no values, and the first such object in the source is noted.
pub fn too_many_scalars()
    ensures one_less { has_too_many structures (array 65536 int_type) ≡ false }
    ensures one_more { has_too_many structures (array 65537 char_type) ≡ true }
    ensures points { has_too_many structures (array 32768 point) ≡ false }
    ensures more_points { has_too_many structures (array 32769 point) ≡ true }
    ensures in_a_grid { scalar_count structures grid ≡ 9 }
    ensures object { limit (rows.large_object before) ≡ Some (Some (at 1)) }
    ensures literal { limit (rows.large_literal Evaluated before) ≡ Some (Some (at 0)) }
    ensures no_values { literal_outcome (rows.large_literal Evaluated before) ≡ each_time 7 (array 70000 int_type) [] }
    ensures measured { limit (rows.large_literal Unevaluated before) ≡ Some (Some (at 0)) }
    ensures small { limit (rows.two_numbers Evaluated before) ≡ Some None }
    ensures former { limit (rows.large_object (limited_at 5)) ≡ Some (Some (at 1)) }
    ensures latter { limit (rows.large_object (limited_at 0)) ≡ Some (Some (at 0)) }
{}

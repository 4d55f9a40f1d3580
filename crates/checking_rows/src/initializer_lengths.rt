//! Arrays without a length get one, of their type as well.
ghost use Rattle.std.specs.Prelude.{◌≡◌, pos, Some, [], ◌∷◌};
ghost use Rattle.model_core.specs.CoreTypes.{int_type};
ghost use Rattle.checking_rows.specs.InitializerParts.{array, char_type, pair};
ghost use Rattle.checking_rows.specs.InitializerAnswers.{numbers, type_after};
ghost use Rattle.checking_rows.specs.InitializerLengths as rows;

/// Arrays without a length get one, of their type as well.
pub fn lengths()
    ensures by_elements { type_after rows.by_elements ≡ Some (array 3 int_type) }
    ensures by_elements_numbers { numbers rows.by_elements ≡ pos 1 ∷ pos 2 ∷ pos 3 ∷ [] }
    ensures by_designators { type_after rows.by_designators ≡ Some (array 5 int_type) }
    ensures by_designators_numbers { numbers rows.by_designators ≡ pos 0 ∷ pos 2 ∷ pos 0 ∷ pos 0 ∷ pos 1 ∷ [] }
    ensures by_string { type_after rows.by_string ≡ Some (array 3 char_type) }
    ensures by_string_numbers { numbers rows.by_string ≡ pos 97 ∷ pos 98 ∷ pos 0 ∷ [] }
    ensures by_string_in_braces { type_after rows.by_string_in_braces ≡ Some (array 3 char_type) }
    ensures by_string_in_braces_numbers { numbers rows.by_string_in_braces ≡ pos 97 ∷ pos 98 ∷ pos 0 ∷ [] }
    ensures by_elided_rows { type_after rows.by_elided_rows ≡ Some (array 2 (array 2 int_type)) }
    ensures by_elided_rows_numbers { numbers rows.by_elided_rows ≡ pos 1 ∷ pos 2 ∷ pos 3 ∷ pos 0 ∷ [] }
    ensures by_structures { type_after rows.by_structures ≡ Some (array 2 pair) }
    ensures by_structures_numbers { numbers rows.by_structures ≡ pos 1 ∷ pos 2 ∷ pos 3 ∷ pos 4 ∷ pos 0 ∷ pos 0 ∷ [] }
    ensures by_strings { type_after rows.by_strings ≡ Some (array 2 (array 3 char_type)) }
    ensures by_strings_numbers { numbers rows.by_strings ≡ pos 97 ∷ pos 0 ∷ pos 0 ∷ pos 98 ∷ pos 0 ∷ pos 0 ∷ [] }
    ensures by_empty_braces { type_after rows.by_empty_braces ≡ Some (array 3 int_type) }
    ensures by_empty_braces_numbers { numbers rows.by_empty_braces ≡ pos 0 ∷ pos 0 ∷ pos 0 ∷ [] }
{}

//! Values that do not fit what they are for, and those that are too many.
ghost use Rattle.std.specs.Prelude.{◌≡◌};
ghost use Rattle.checking_rows.specs.InitializerAnswers.{outcome, breaks};
ghost use Rattle.checking_rows.specs.InitializerFaults as rows;

/// Values that do not fit what they are for, and those that are too many.
pub fn misfits()
    ensures too_many { outcome rows.too_many ≡ breaks 33 11 }
    ensures too_many_for_a_scalar { outcome rows.too_many_for_a_scalar ≡ breaks 33 6 }
    ensures string_too_long { outcome rows.string_too_long ≡ breaks 33 6 }
    ensures string_too_long_in_braces { outcome rows.string_too_long_in_braces ≡ breaks 33 7 }
    ensures too_many_inside { outcome rows.too_many_inside ≡ breaks 33 15 }
    ensures too_many_braces { outcome rows.too_many_braces ≡ breaks 33 9 }
    ensures value_for_array { outcome rows.value_for_array ≡ breaks 35 6 }
    ensures string_for_integers { outcome rows.string_for_integers ≡ breaks 35 6 }
    ensures value_for_structure { outcome rows.value_for_structure ≡ breaks 35 4 }
    ensures other_structure { outcome rows.other_structure ≡ breaks 35 4 }
    ensures string_for_structure { outcome rows.string_for_structure ≡ breaks 35 4 }
    ensures string_in_parentheses { outcome rows.string_in_parentheses ≡ breaks 35 6 }
    ensures character_for_array { outcome rows.character_for_array ≡ breaks 35 6 }
    ensures other_structure_inside { outcome rows.other_structure_inside ≡ breaks 16 8 }
    ensures whole_in_its_braces { outcome rows.whole_in_its_braces ≡ breaks 16 5 }
    ensures structure_for_element { outcome rows.structure_for_element ≡ breaks 16 7 }
    ensures structure_for_scalar { outcome rows.structure_for_scalar ≡ breaks 16 3 }
    ensures string_for_scalar { outcome rows.string_for_scalar ≡ breaks 16 3 }
    ensures string_for_element { outcome rows.string_for_element ≡ breaks 16 9 }
    ensures string_and_more { outcome rows.string_and_more ≡ breaks 16 7 }
    ensures string_in_two_braces { outcome rows.string_in_two_braces ≡ breaks 16 8 }
    ensures string_in_parentheses_inside { outcome rows.string_in_parentheses_inside ≡ breaks 16 7 }
    ensures drops_const { outcome rows.drops_const ≡ breaks 17 4 }
    ensures first_of_two { outcome rows.first_of_two ≡ breaks 16 7 }
{}

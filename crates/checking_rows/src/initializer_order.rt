//! Two rules at one token, and faults of values beside those of their places.
ghost use Rattle.std.specs.Prelude.{◌≡◌};
ghost use Rattle.checking_rows.specs.InitializerAnswers.{outcome, breaks};
ghost use Rattle.checking_rows.specs.InitializerOrder as rows;

/// Two rules at one token, and faults of values beside those of their places.
pub fn order_of_faults()
    ensures no_value { outcome rows.no_value ≡ breaks 16 3 }
    ensures no_value_for_structure { outcome rows.no_value_for_structure ≡ breaks 21 4 }
    ensures no_value_too_many { outcome rows.no_value_too_many ≡ breaks 21 9 }
    ensures undeclared_too_many { outcome rows.undeclared_too_many ≡ breaks 5 9 }
    ensures too_many_undeclared { outcome rows.too_many_undeclared ≡ breaks 33 9 }
    ensures undeclared_for_array { outcome rows.undeclared_for_array ≡ breaks 5 6 }
    ensures array_undeclared { outcome rows.array_undeclared ≡ breaks 35 6 }
    ensures structure_undeclared { outcome rows.structure_undeclared ≡ breaks 5 6 }
    ensures nothing_behind { outcome rows.nothing_behind ≡ breaks 5 7 }
    ensures length_before_value { outcome rows.length_before_value ≡ breaks 22 1 }
    ensures length_before_undeclared { outcome rows.length_before_undeclared ≡ breaks 22 1 }
    ensures length_before_string { outcome rows.length_before_string ≡ breaks 22 1 }
    ensures length_before_parentheses { outcome rows.length_before_parentheses ≡ breaks 22 1 }
    ensures no_elements { outcome rows.no_elements ≡ breaks 22 1 }
    ensures fault_inside { outcome rows.fault_inside ≡ breaks 5 8 }
    ensures too_large { outcome rows.too_large ≡ breaks 25 1 }
    ensures too_large_with_fault { outcome rows.too_large_with_fault ≡ breaks 5 12 }
{}

//! enumerators in values: what the definition of checking answers.
ghost use Rattle.std.specs.Prelude.{◌≡◌};
ghost use Rattle.checking_units.specs.Parts.{outcome, accepted, breaks};
ghost use Rattle.checking_units.specs.RowsEnumeratorsInValues as rows;

/// enumerators in values.
pub fn rows_enumerators_in_values()
    ensures enumerators_in_values_1 { outcome rows.enumerators_in_values_1 ≡ breaks 2 24 }
    ensures enumerators_in_values_2 { outcome rows.enumerators_in_values_2 ≡ breaks 2 39 }
    ensures enumerators_in_values_3 { outcome rows.enumerators_in_values_3 ≡ breaks 2 24 }
    ensures enumerators_in_values_4 { outcome rows.enumerators_in_values_4 ≡ breaks 2 24 }
    ensures enumerators_in_values_5 { outcome rows.enumerators_in_values_5 ≡ breaks 5 10 }
    ensures enumerators_in_values_6 { outcome rows.enumerators_in_values_6 ≡ breaks 31 6 }
    ensures enumerators_in_values_7 { outcome rows.enumerators_in_values_7 ≡ breaks 2 28 }
    ensures enumerators_in_values_8 { outcome rows.enumerators_in_values_8 ≡ breaks 2 33 }
    ensures enumerators_in_values_9 { outcome rows.enumerators_in_values_9 ≡ breaks 2 23 }
    ensures enumerators_in_values_10 { outcome rows.enumerators_in_values_10 ≡ accepted }
    ensures enumerators_in_values_11 { outcome rows.enumerators_in_values_11 ≡ accepted }
{}

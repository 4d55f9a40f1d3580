//! constant and static values: what the definition of checking answers.
ghost use Rattle.std.specs.Prelude.{◌≡◌};
ghost use Rattle.checking_units.specs.Parts.{outcome, accepted, breaks};
ghost use Rattle.checking_units.specs.RowsConstantAndStaticValues as rows;

/// constant and static values.
pub fn rows_constant_and_static_values()
    ensures constant_and_static_values_1 { outcome rows.constant_and_static_values_1 ≡ accepted }
    ensures constant_and_static_values_2 { outcome rows.constant_and_static_values_2 ≡ breaks 24 7 }
    ensures constant_and_static_values_3 { outcome rows.constant_and_static_values_3 ≡ breaks 24 7 }
    ensures constant_and_static_values_4 { outcome rows.constant_and_static_values_4 ≡ breaks 24 7 }
    ensures constant_and_static_values_5 { outcome rows.constant_and_static_values_5 ≡ breaks 25 7 }
    ensures constant_and_static_values_6 { outcome rows.constant_and_static_values_6 ≡ breaks 23 7 }
    ensures constant_and_static_values_7 { outcome rows.constant_and_static_values_7 ≡ breaks 30 33 }
    ensures constant_and_static_values_8 { outcome rows.constant_and_static_values_8 ≡ accepted }
    ensures constant_and_static_values_9 { outcome rows.constant_and_static_values_9 ≡ accepted }
    ensures constant_and_static_values_10 { outcome rows.constant_and_static_values_10 ≡ accepted }
    ensures constant_and_static_values_11 { outcome rows.constant_and_static_values_11 ≡ accepted }
    ensures constant_and_static_values_12 { outcome rows.constant_and_static_values_12 ≡ breaks 23 17 }
    ensures constant_and_static_values_13 { outcome rows.constant_and_static_values_13 ≡ breaks 23 59 }
    ensures constant_and_static_values_14 { outcome rows.constant_and_static_values_14 ≡ accepted }
    ensures constant_and_static_values_15 { outcome rows.constant_and_static_values_15 ≡ breaks 23 33 }
{}

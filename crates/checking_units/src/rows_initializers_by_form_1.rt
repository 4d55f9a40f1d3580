//! initializers by form: what the definition of checking answers.
ghost use Rattle.std.specs.Prelude.{◌≡◌};
ghost use Rattle.checking_units.specs.Parts.{outcome, accepted, breaks};
ghost use Rattle.checking_units.specs.RowsInitializersByForm1 as rows;

/// initializers by form.
pub fn rows_initializers_by_form_1()
    ensures initializers_by_form_1 { outcome rows.initializers_by_form_1 ≡ accepted }
    ensures initializers_by_form_2 { outcome rows.initializers_by_form_2 ≡ breaks 33 25 }
    ensures initializers_by_form_3 { outcome rows.initializers_by_form_3 ≡ breaks 33 29 }
    ensures initializers_by_form_4 { outcome rows.initializers_by_form_4 ≡ breaks 33 123 }
    ensures initializers_by_form_5 { outcome rows.initializers_by_form_5 ≡ accepted }
    ensures initializers_by_form_6 { outcome rows.initializers_by_form_6 ≡ accepted }
    ensures initializers_by_form_7 { outcome rows.initializers_by_form_7 ≡ accepted }
    ensures initializers_by_form_8 { outcome rows.initializers_by_form_8 ≡ accepted }
    ensures initializers_by_form_9 { outcome rows.initializers_by_form_9 ≡ accepted }
    ensures initializers_by_form_10 { outcome rows.initializers_by_form_10 ≡ breaks 34 13 }
    ensures initializers_by_form_11 { outcome rows.initializers_by_form_11 ≡ breaks 34 62 }
    ensures initializers_by_form_12 { outcome rows.initializers_by_form_12 ≡ breaks 34 27 }
    ensures initializers_by_form_13 { outcome rows.initializers_by_form_13 ≡ breaks 34 14 }
    ensures initializers_by_form_14 { outcome rows.initializers_by_form_14 ≡ breaks 16 46 }
    ensures initializers_by_form_15 { outcome rows.initializers_by_form_15 ≡ accepted }
    ensures initializers_by_form_16 { outcome rows.initializers_by_form_16 ≡ breaks 16 67 }
    ensures initializers_by_form_17 { outcome rows.initializers_by_form_17 ≡ accepted }
    ensures initializers_by_form_18 { outcome rows.initializers_by_form_18 ≡ breaks 33 15 }
    ensures initializers_by_form_19 { outcome rows.initializers_by_form_19 ≡ breaks 33 32 }
    ensures initializers_by_form_20 { outcome rows.initializers_by_form_20 ≡ breaks 5 20 }
    ensures initializers_by_form_21 { outcome rows.initializers_by_form_21 ≡ breaks 35 12 }
    ensures initializers_by_form_22 { outcome rows.initializers_by_form_22 ≡ breaks 16 25 }
    ensures initializers_by_form_23 { outcome rows.initializers_by_form_23 ≡ breaks 22 35 }
    ensures initializers_by_form_24 { outcome rows.initializers_by_form_24 ≡ breaks 22 17 }
{}

//! initializers by form: what the definition of checking answers.
ghost use Rattle.std.specs.Prelude.{◌≡◌};
ghost use Rattle.checking_units.specs.Parts.{outcome, accepted, breaks};
ghost use Rattle.checking_units.specs.RowsInitializersByForm2 as rows;

/// initializers by form.
pub fn rows_initializers_by_form_2()
    ensures initializers_by_form_25 { outcome rows.initializers_by_form_25 ≡ breaks 22 17 }
    ensures initializers_by_form_26 { outcome rows.initializers_by_form_26 ≡ breaks 22 38 }
    ensures initializers_by_form_27 { outcome rows.initializers_by_form_27 ≡ breaks 23 33 }
    ensures initializers_by_form_28 { outcome rows.initializers_by_form_28 ≡ accepted }
    ensures initializers_by_form_29 { outcome rows.initializers_by_form_29 ≡ accepted }
    ensures initializers_by_form_30 { outcome rows.initializers_by_form_30 ≡ breaks 32 19 }
    ensures initializers_by_form_31 { outcome rows.initializers_by_form_31 ≡ breaks 25 6 }
    ensures initializers_by_form_32 { outcome rows.initializers_by_form_32 ≡ breaks 23 22 }
    ensures initializers_by_form_33 { outcome rows.initializers_by_form_33 ≡ breaks 17 57 }
    ensures initializers_by_form_34 { outcome rows.initializers_by_form_34 ≡ breaks 21 36 }
{}

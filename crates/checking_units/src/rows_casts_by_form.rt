//! casts by form: what the definition of checking answers.
ghost use Rattle.std.specs.Prelude.{◌≡◌};
ghost use Rattle.checking_units.specs.Parts.{outcome, accepted, breaks};
ghost use Rattle.checking_units.specs.RowsCastsByForm as rows;

/// casts by form.
pub fn rows_casts_by_form()
    ensures casts_by_form_1 { outcome rows.casts_by_form_1 ≡ breaks 5 25 }
    ensures casts_by_form_2 { outcome rows.casts_by_form_2 ≡ breaks 5 25 }
    ensures casts_by_form_3 { outcome rows.casts_by_form_3 ≡ breaks 18 16 }
    ensures casts_by_form_4 { outcome rows.casts_by_form_4 ≡ breaks 18 16 }
    ensures casts_by_form_5 { outcome rows.casts_by_form_5 ≡ breaks 22 17 }
    ensures casts_by_form_6 { outcome rows.casts_by_form_6 ≡ breaks 18 29 }
    ensures casts_by_form_7 { outcome rows.casts_by_form_7 ≡ breaks 18 16 }
    ensures casts_by_form_8 { outcome rows.casts_by_form_8 ≡ accepted }
    ensures casts_by_form_9 { outcome rows.casts_by_form_9 ≡ breaks 5 32 }
{}

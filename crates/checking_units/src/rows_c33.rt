//! C33: too many initializers: what the definition of checking answers.
ghost use Rattle.std.specs.Prelude.{◌≡◌};
ghost use Rattle.checking_units.specs.Parts.{outcome, breaks};
ghost use Rattle.checking_units.specs.RowsC33 as rows;

/// C33: too many initializers.
pub fn rows_c33()
    ensures c33_1 { outcome rows.c33_1 ≡ breaks 33 13 }
    ensures c33_2 { outcome rows.c33_2 ≡ breaks 33 20 }
    ensures c33_3 { outcome rows.c33_3 ≡ breaks 33 30 }
    ensures c33_4 { outcome rows.c33_4 ≡ breaks 33 14 }
    ensures c33_5 { outcome rows.c33_5 ≡ breaks 33 17 }
{}

//! C35: initializer does not fit the type: what the definition of checking answers.
ghost use Rattle.std.specs.Prelude.{◌≡◌};
ghost use Rattle.checking_units.specs.Parts.{outcome, breaks};
ghost use Rattle.checking_units.specs.RowsC35 as rows;

/// C35: initializer does not fit the type.
pub fn rows_c35()
    ensures c35_1 { outcome rows.c35_1 ≡ breaks 35 13 }
    ensures c35_2 { outcome rows.c35_2 ≡ breaks 35 25 }
    ensures c35_3 { outcome rows.c35_3 ≡ breaks 35 12 }
{}

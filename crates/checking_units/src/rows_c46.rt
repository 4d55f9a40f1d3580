//! C46: condition has the wrong type: what the definition of checking answers.
ghost use Rattle.std.specs.Prelude.{◌≡◌};
ghost use Rattle.checking_units.specs.Parts.{outcome, breaks};
ghost use Rattle.checking_units.specs.RowsC46 as rows;

/// C46: condition has the wrong type.
pub fn rows_c46()
    ensures c46_1 { outcome rows.c46_1 ≡ breaks 46 47 }
    ensures c46_2 { outcome rows.c46_2 ≡ breaks 46 43 }
    ensures c46_3 { outcome rows.c46_3 ≡ breaks 46 25 }
    ensures c46_4 { outcome rows.c46_4 ≡ breaks 46 46 }
{}

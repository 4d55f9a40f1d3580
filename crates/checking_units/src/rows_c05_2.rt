//! C05: name is not declared: what the definition of checking answers.
ghost use Rattle.std.specs.Prelude.{◌≡◌};
ghost use Rattle.checking_units.specs.Parts.{outcome, breaks};
ghost use Rattle.checking_units.specs.RowsC052 as rows;

/// C05: name is not declared.
pub fn rows_c05_2()
    ensures c05_25 { outcome rows.c05_25 ≡ breaks 5 48 }
    ensures c05_26 { outcome rows.c05_26 ≡ breaks 5 44 }
    ensures c05_27 { outcome rows.c05_27 ≡ breaks 5 17 }
    ensures c05_28 { outcome rows.c05_28 ≡ breaks 5 12 }
    ensures c05_29 { outcome rows.c05_29 ≡ breaks 5 20 }
{}

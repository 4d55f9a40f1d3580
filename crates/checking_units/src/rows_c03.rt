//! C03: redeclared with another type: what the definition of checking answers.
ghost use Rattle.std.specs.Prelude.{◌≡◌};
ghost use Rattle.checking_units.specs.Parts.{outcome, breaks};
ghost use Rattle.checking_units.specs.RowsC03 as rows;

/// C03: redeclared with another type.
pub fn rows_c03()
    ensures c03_1 { outcome rows.c03_1 ≡ breaks 3 13 }
    ensures c03_2 { outcome rows.c03_2 ≡ breaks 3 37 }
    ensures c03_3 { outcome rows.c03_3 ≡ breaks 3 19 }
    ensures c03_4 { outcome rows.c03_4 ≡ breaks 3 30 }
    ensures c03_5 { outcome rows.c03_5 ≡ breaks 3 45 }
    ensures c03_6 { outcome rows.c03_6 ≡ breaks 3 62 }
    ensures c03_7 { outcome rows.c03_7 ≡ breaks 3 26 }
    ensures c03_8 { outcome rows.c03_8 ≡ breaks 3 20 }
    ensures c03_9 { outcome rows.c03_9 ≡ breaks 3 17 }
{}

//! C02: name is declared twice in one scope: what the definition of checking answers.
ghost use Rattle.std.specs.Prelude.{◌≡◌};
ghost use Rattle.checking_units.specs.Parts.{outcome, breaks};
ghost use Rattle.checking_units.specs.RowsC02 as rows;

/// C02: name is declared twice in one scope.
pub fn rows_c02()
    ensures c02_1 { outcome rows.c02_1 ≡ breaks 2 24 }
    ensures c02_2 { outcome rows.c02_2 ≡ breaks 2 18 }
    ensures c02_3 { outcome rows.c02_3 ≡ breaks 2 11 }
    ensures c02_4 { outcome rows.c02_4 ≡ breaks 2 27 }
    ensures c02_5 { outcome rows.c02_5 ≡ breaks 2 15 }
    ensures c02_6 { outcome rows.c02_6 ≡ breaks 2 20 }
    ensures c02_7 { outcome rows.c02_7 ≡ breaks 2 28 }
    ensures c02_8 { outcome rows.c02_8 ≡ breaks 2 23 }
    ensures c02_9 { outcome rows.c02_9 ≡ breaks 2 11 }
    ensures c02_10 { outcome rows.c02_10 ≡ breaks 2 8 }
    ensures c02_11 { outcome rows.c02_11 ≡ breaks 2 18 }
    ensures c02_12 { outcome rows.c02_12 ≡ breaks 2 29 }
    ensures c02_13 { outcome rows.c02_13 ≡ breaks 2 23 }
    ensures c02_14 { outcome rows.c02_14 ≡ breaks 2 21 }
{}

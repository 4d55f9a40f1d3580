//! C05: name is not declared: what the definition of checking answers.
ghost use Rattle.std.specs.Prelude.{◌≡◌};
ghost use Rattle.checking_units.specs.Parts.{outcome, breaks};
ghost use Rattle.checking_units.specs.RowsC051 as rows;

/// C05: name is not declared.
pub fn rows_c05_1()
    ensures c05_1 { outcome rows.c05_1 ≡ breaks 5 22 }
    ensures c05_2 { outcome rows.c05_2 ≡ breaks 5 6 }
    ensures c05_3 { outcome rows.c05_3 ≡ breaks 5 6 }
    ensures c05_4 { outcome rows.c05_4 ≡ breaks 5 58 }
    ensures c05_5 { outcome rows.c05_5 ≡ breaks 5 12 }
    ensures c05_6 { outcome rows.c05_6 ≡ breaks 5 10 }
    ensures c05_7 { outcome rows.c05_7 ≡ breaks 5 20 }
    ensures c05_8 { outcome rows.c05_8 ≡ breaks 5 45 }
    ensures c05_9 { outcome rows.c05_9 ≡ breaks 5 7 }
    ensures c05_10 { outcome rows.c05_10 ≡ breaks 5 10 }
    ensures c05_11 { outcome rows.c05_11 ≡ breaks 5 17 }
    ensures c05_12 { outcome rows.c05_12 ≡ breaks 5 13 }
    ensures c05_13 { outcome rows.c05_13 ≡ breaks 5 53 }
    ensures c05_14 { outcome rows.c05_14 ≡ breaks 5 25 }
    ensures c05_15 { outcome rows.c05_15 ≡ breaks 5 23 }
    ensures c05_16 { outcome rows.c05_16 ≡ breaks 5 49 }
    ensures c05_17 { outcome rows.c05_17 ≡ breaks 5 13 }
    ensures c05_18 { outcome rows.c05_18 ≡ breaks 5 45 }
    ensures c05_19 { outcome rows.c05_19 ≡ breaks 5 77 }
    ensures c05_20 { outcome rows.c05_20 ≡ breaks 5 34 }
    ensures c05_21 { outcome rows.c05_21 ≡ breaks 5 46 }
    ensures c05_22 { outcome rows.c05_22 ≡ breaks 5 55 }
    ensures c05_23 { outcome rows.c05_23 ≡ breaks 5 43 }
    ensures c05_24 { outcome rows.c05_24 ≡ breaks 5 47 }
{}

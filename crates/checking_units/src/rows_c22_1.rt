//! C22: complete object type is needed: what the definition of checking answers.
ghost use Rattle.std.specs.Prelude.{◌≡◌};
ghost use Rattle.checking_units.specs.Parts.{outcome, breaks};
ghost use Rattle.checking_units.specs.RowsC221 as rows;

/// C22: complete object type is needed.
pub fn rows_c22_1()
    ensures c22_1 { outcome rows.c22_1 ≡ breaks 22 56 }
    ensures c22_2 { outcome rows.c22_2 ≡ breaks 22 21 }
    ensures c22_3 { outcome rows.c22_3 ≡ breaks 22 17 }
    ensures c22_4 { outcome rows.c22_4 ≡ breaks 22 16 }
    ensures c22_5 { outcome rows.c22_5 ≡ breaks 22 16 }
    ensures c22_6 { outcome rows.c22_6 ≡ breaks 22 35 }
    ensures c22_7 { outcome rows.c22_7 ≡ breaks 22 16 }
    ensures c22_8 { outcome rows.c22_8 ≡ breaks 22 10 }
    ensures c22_9 { outcome rows.c22_9 ≡ breaks 22 6 }
    ensures c22_10 { outcome rows.c22_10 ≡ breaks 22 6 }
    ensures c22_11 { outcome rows.c22_11 ≡ breaks 22 5 }
    ensures c22_12 { outcome rows.c22_12 ≡ breaks 22 5 }
    ensures c22_13 { outcome rows.c22_13 ≡ breaks 22 17 }
    ensures c22_14 { outcome rows.c22_14 ≡ breaks 22 16 }
    ensures c22_15 { outcome rows.c22_15 ≡ breaks 22 14 }
    ensures c22_16 { outcome rows.c22_16 ≡ breaks 22 8 }
    ensures c22_17 { outcome rows.c22_17 ≡ breaks 22 10 }
    ensures c22_18 { outcome rows.c22_18 ≡ breaks 22 5 }
    ensures c22_19 { outcome rows.c22_19 ≡ breaks 22 27 }
    ensures c22_20 { outcome rows.c22_20 ≡ breaks 22 6 }
    ensures c22_21 { outcome rows.c22_21 ≡ breaks 22 6 }
    ensures c22_22 { outcome rows.c22_22 ≡ breaks 22 5 }
    ensures c22_23 { outcome rows.c22_23 ≡ breaks 22 5 }
    ensures c22_24 { outcome rows.c22_24 ≡ breaks 22 5 }
{}

//! C27: specifiers do not combine: what the definition of checking answers.
ghost use Rattle.std.specs.Prelude.{◌≡◌};
ghost use Rattle.checking_units.specs.Parts.{outcome, breaks};
ghost use Rattle.checking_units.specs.RowsC27 as rows;

/// C27: specifiers do not combine.
pub fn rows_c27()
    ensures c27_1 { outcome rows.c27_1 ≡ breaks 27 8 }
    ensures c27_2 { outcome rows.c27_2 ≡ breaks 27 24 }
    ensures c27_3 { outcome rows.c27_3 ≡ breaks 27 8 }
    ensures c27_4 { outcome rows.c27_4 ≡ breaks 27 7 }
    ensures c27_5 { outcome rows.c27_5 ≡ breaks 27 11 }
    ensures c27_6 { outcome rows.c27_6 ≡ breaks 27 12 }
    ensures c27_7 { outcome rows.c27_7 ≡ breaks 27 6 }
    ensures c27_8 { outcome rows.c27_8 ≡ breaks 27 6 }
    ensures c27_9 { outcome rows.c27_9 ≡ breaks 27 10 }
    ensures c27_10 { outcome rows.c27_10 ≡ breaks 27 18 }
    ensures c27_11 { outcome rows.c27_11 ≡ breaks 27 5 }
    ensures c27_12 { outcome rows.c27_12 ≡ breaks 27 21 }
    ensures c27_13 { outcome rows.c27_13 ≡ breaks 27 5 }
    ensures c27_14 { outcome rows.c27_14 ≡ breaks 27 8 }
    ensures c27_15 { outcome rows.c27_15 ≡ breaks 27 8 }
    ensures c27_16 { outcome rows.c27_16 ≡ breaks 27 9 }
    ensures c27_17 { outcome rows.c27_17 ≡ breaks 27 11 }
    ensures c27_18 { outcome rows.c27_18 ≡ breaks 27 16 }
    ensures c27_19 { outcome rows.c27_19 ≡ breaks 27 1 }
    ensures c27_20 { outcome rows.c27_20 ≡ breaks 27 23 }
    ensures c27_21 { outcome rows.c27_21 ≡ breaks 27 21 }
    ensures c27_22 { outcome rows.c27_22 ≡ breaks 27 12 }
    ensures c27_23 { outcome rows.c27_23 ≡ breaks 27 16 }
{}

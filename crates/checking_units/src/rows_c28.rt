//! C28: type is impossible: what the definition of checking answers.
ghost use Rattle.std.specs.Prelude.{◌≡◌};
ghost use Rattle.checking_units.specs.Parts.{outcome, breaks};
ghost use Rattle.checking_units.specs.RowsC28 as rows;

/// C28: type is impossible.
pub fn rows_c28()
    ensures c28_1 { outcome rows.c28_1 ≡ breaks 28 1 }
    ensures c28_2 { outcome rows.c28_2 ≡ breaks 28 15 }
    ensures c28_3 { outcome rows.c28_3 ≡ breaks 28 5 }
    ensures c28_4 { outcome rows.c28_4 ≡ breaks 28 24 }
    ensures c28_5 { outcome rows.c28_5 ≡ breaks 28 5 }
    ensures c28_6 { outcome rows.c28_6 ≡ breaks 28 5 }
    ensures c28_7 { outcome rows.c28_7 ≡ breaks 28 14 }
    ensures c28_8 { outcome rows.c28_8 ≡ breaks 28 24 }
    ensures c28_9 { outcome rows.c28_9 ≡ breaks 28 7 }
    ensures c28_10 { outcome rows.c28_10 ≡ breaks 28 7 }
    ensures c28_11 { outcome rows.c28_11 ≡ breaks 28 12 }
    ensures c28_12 { outcome rows.c28_12 ≡ breaks 28 7 }
    ensures c28_13 { outcome rows.c28_13 ≡ breaks 28 7 }
    ensures c28_14 { outcome rows.c28_14 ≡ breaks 28 10 }
    ensures c28_15 { outcome rows.c28_15 ≡ breaks 28 13 }
    ensures c28_16 { outcome rows.c28_16 ≡ breaks 28 27 }
    ensures c28_17 { outcome rows.c28_17 ≡ breaks 28 16 }
    ensures c28_18 { outcome rows.c28_18 ≡ breaks 28 16 }
    ensures c28_19 { outcome rows.c28_19 ≡ breaks 28 5 }
{}

//! C29: ownership qualifier is misplaced: what the definition of checking answers.
ghost use Rattle.std.specs.Prelude.{◌≡◌};
ghost use Rattle.checking_units.specs.Parts.{outcome, breaks};
ghost use Rattle.checking_units.specs.RowsC29 as rows;

/// C29: ownership qualifier is misplaced.
pub fn rows_c29()
    ensures c29_1 { outcome rows.c29_1 ≡ breaks 29 1 }
    ensures c29_2 { outcome rows.c29_2 ≡ breaks 29 5 }
    ensures c29_3 { outcome rows.c29_3 ≡ breaks 29 1 }
    ensures c29_4 { outcome rows.c29_4 ≡ breaks 29 18 }
    ensures c29_5 { outcome rows.c29_5 ≡ breaks 29 33 }
    ensures c29_6 { outcome rows.c29_6 ≡ breaks 29 26 }
    ensures c29_7 { outcome rows.c29_7 ≡ breaks 29 15 }
    ensures c29_8 { outcome rows.c29_8 ≡ breaks 29 15 }
    ensures c29_9 { outcome rows.c29_9 ≡ breaks 29 14 }
    ensures c29_10 { outcome rows.c29_10 ≡ breaks 29 29 }
    ensures c29_11 { outcome rows.c29_11 ≡ breaks 29 1 }
    ensures c29_12 { outcome rows.c29_12 ≡ breaks 29 16 }
    ensures c29_13 { outcome rows.c29_13 ≡ breaks 29 8 }
    ensures c29_14 { outcome rows.c29_14 ≡ breaks 29 5 }
    ensures c29_15 { outcome rows.c29_15 ≡ breaks 29 7 }
{}

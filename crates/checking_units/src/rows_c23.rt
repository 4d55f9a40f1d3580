//! C23: constant expression is needed: what the definition of checking answers.
ghost use Rattle.std.specs.Prelude.{◌≡◌};
ghost use Rattle.checking_units.specs.Parts.{outcome, breaks};
ghost use Rattle.checking_units.specs.RowsC23 as rows;

/// C23: constant expression is needed.
pub fn rows_c23()
    ensures c23_1 { outcome rows.c23_1 ≡ breaks 23 19 }
    ensures c23_2 { outcome rows.c23_2 ≡ breaks 23 22 }
    ensures c23_3 { outcome rows.c23_3 ≡ breaks 23 26 }
    ensures c23_4 { outcome rows.c23_4 ≡ breaks 23 48 }
    ensures c23_5 { outcome rows.c23_5 ≡ breaks 23 14 }
    ensures c23_6 { outcome rows.c23_6 ≡ breaks 23 16 }
    ensures c23_7 { outcome rows.c23_7 ≡ breaks 23 16 }
    ensures c23_8 { outcome rows.c23_8 ≡ breaks 23 24 }
    ensures c23_9 { outcome rows.c23_9 ≡ breaks 23 27 }
    ensures c23_10 { outcome rows.c23_10 ≡ breaks 23 16 }
    ensures c23_11 { outcome rows.c23_11 ≡ breaks 23 54 }
    ensures c23_12 { outcome rows.c23_12 ≡ breaks 23 7 }
    ensures c23_13 { outcome rows.c23_13 ≡ breaks 23 7 }
    ensures c23_14 { outcome rows.c23_14 ≡ breaks 23 44 }
    ensures c23_15 { outcome rows.c23_15 ≡ breaks 23 10 }
    ensures c23_16 { outcome rows.c23_16 ≡ breaks 23 42 }
    ensures c23_17 { outcome rows.c23_17 ≡ breaks 23 34 }
{}

//! C10: left side cannot be changed: what the definition of checking answers.
ghost use Rattle.std.specs.Prelude.{◌≡◌};
ghost use Rattle.checking_units.specs.Parts.{outcome, breaks};
ghost use Rattle.checking_units.specs.RowsC10 as rows;

/// C10: left side cannot be changed.
pub fn rows_c10()
    ensures c10_1 { outcome rows.c10_1 ≡ breaks 10 50 }
    ensures c10_2 { outcome rows.c10_2 ≡ breaks 10 36 }
    ensures c10_3 { outcome rows.c10_3 ≡ breaks 10 52 }
    ensures c10_4 { outcome rows.c10_4 ≡ breaks 10 18 }
    ensures c10_5 { outcome rows.c10_5 ≡ breaks 10 18 }
    ensures c10_6 { outcome rows.c10_6 ≡ breaks 10 95 }
    ensures c10_7 { outcome rows.c10_7 ≡ breaks 10 55 }
    ensures c10_8 { outcome rows.c10_8 ≡ breaks 10 50 }
    ensures c10_9 { outcome rows.c10_9 ≡ breaks 10 25 }
    ensures c10_10 { outcome rows.c10_10 ≡ breaks 10 27 }
    ensures c10_11 { outcome rows.c10_11 ≡ breaks 10 31 }
    ensures c10_12 { outcome rows.c10_12 ≡ breaks 10 31 }
    ensures c10_13 { outcome rows.c10_13 ≡ breaks 10 92 }
{}

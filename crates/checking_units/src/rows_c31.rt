//! C31: auto needs one plain initializer: what the definition of checking answers.
ghost use Rattle.std.specs.Prelude.{◌≡◌};
ghost use Rattle.checking_units.specs.Parts.{outcome, breaks};
ghost use Rattle.checking_units.specs.RowsC31 as rows;

/// C31: auto needs one plain initializer.
pub fn rows_c31()
    ensures c31_1 { outcome rows.c31_1 ≡ breaks 31 6 }
    ensures c31_2 { outcome rows.c31_2 ≡ breaks 31 14 }
    ensures c31_3 { outcome rows.c31_3 ≡ breaks 31 6 }
    ensures c31_4 { outcome rows.c31_4 ≡ breaks 31 6 }
    ensures c31_5 { outcome rows.c31_5 ≡ breaks 31 6 }
    ensures c31_6 { outcome rows.c31_6 ≡ breaks 31 1 }
    ensures c31_7 { outcome rows.c31_7 ≡ breaks 31 6 }
    ensures c31_8 { outcome rows.c31_8 ≡ breaks 31 6 }
    ensures c31_9 { outcome rows.c31_9 ≡ breaks 31 21 }
    ensures c31_10 { outcome rows.c31_10 ≡ breaks 31 21 }
    ensures c31_11 { outcome rows.c31_11 ≡ breaks 31 21 }
    ensures c31_12 { outcome rows.c31_12 ≡ breaks 31 21 }
    ensures c31_13 { outcome rows.c31_13 ≡ breaks 31 21 }
{}

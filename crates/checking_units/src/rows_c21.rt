//! C21: value of type void is used: what the definition of checking answers.
ghost use Rattle.std.specs.Prelude.{◌≡◌};
ghost use Rattle.checking_units.specs.Parts.{outcome, breaks};
ghost use Rattle.checking_units.specs.RowsC21 as rows;

/// C21: value of type void is used.
pub fn rows_c21()
    ensures c21_1 { outcome rows.c21_1 ≡ breaks 21 38 }
    ensures c21_2 { outcome rows.c21_2 ≡ breaks 21 31 }
    ensures c21_3 { outcome rows.c21_3 ≡ breaks 21 31 }
    ensures c21_4 { outcome rows.c21_4 ≡ breaks 21 37 }
    ensures c21_5 { outcome rows.c21_5 ≡ breaks 21 36 }
    ensures c21_6 { outcome rows.c21_6 ≡ breaks 21 36 }
    ensures c21_7 { outcome rows.c21_7 ≡ breaks 21 74 }
    ensures c21_8 { outcome rows.c21_8 ≡ breaks 21 34 }
    ensures c21_9 { outcome rows.c21_9 ≡ breaks 21 30 }
    ensures c21_10 { outcome rows.c21_10 ≡ breaks 21 23 }
    ensures c21_11 { outcome rows.c21_11 ≡ breaks 21 37 }
    ensures c21_12 { outcome rows.c21_12 ≡ breaks 21 31 }
{}

//! C01: name begins with cake_: what the definition of checking answers.
ghost use Rattle.std.specs.Prelude.{◌≡◌};
ghost use Rattle.checking_units.specs.Parts.{outcome, breaks};
ghost use Rattle.checking_units.specs.RowsC01 as rows;

/// C01: name begins with cake_.
pub fn rows_c01()
    ensures c01_1 { outcome rows.c01_1 ≡ breaks 1 16 }
    ensures c01_2 { outcome rows.c01_2 ≡ breaks 1 8 }
    ensures c01_3 { outcome rows.c01_3 ≡ breaks 1 8 }
    ensures c01_4 { outcome rows.c01_4 ≡ breaks 1 6 }
    ensures c01_5 { outcome rows.c01_5 ≡ breaks 1 11 }
    ensures c01_6 { outcome rows.c01_6 ≡ breaks 1 8 }
    ensures c01_7 { outcome rows.c01_7 ≡ breaks 1 13 }
    ensures c01_8 { outcome rows.c01_8 ≡ breaks 1 20 }
    ensures c01_9 { outcome rows.c01_9 ≡ breaks 1 25 }
    ensures c01_10 { outcome rows.c01_10 ≡ breaks 1 17 }
    ensures c01_11 { outcome rows.c01_11 ≡ breaks 1 8 }
    ensures c01_12 { outcome rows.c01_12 ≡ breaks 1 6 }
{}

//! C22: complete object type is needed: what the definition of checking answers.
ghost use Rattle.std.specs.Prelude.{◌≡◌};
ghost use Rattle.checking_units.specs.Parts.{outcome, breaks};
ghost use Rattle.checking_units.specs.RowsC222 as rows;

/// C22: complete object type is needed.
pub fn rows_c22_2()
    ensures c22_25 { outcome rows.c22_25 ≡ breaks 22 5 }
    ensures c22_26 { outcome rows.c22_26 ≡ breaks 22 10 }
    ensures c22_27 { outcome rows.c22_27 ≡ breaks 22 26 }
    ensures c22_28 { outcome rows.c22_28 ≡ breaks 22 35 }
    ensures c22_29 { outcome rows.c22_29 ≡ breaks 22 55 }
    ensures c22_30 { outcome rows.c22_30 ≡ breaks 22 46 }
    ensures c22_31 { outcome rows.c22_31 ≡ breaks 22 44 }
    ensures c22_32 { outcome rows.c22_32 ≡ breaks 22 45 }
    ensures c22_33 { outcome rows.c22_33 ≡ breaks 22 23 }
    ensures c22_34 { outcome rows.c22_34 ≡ breaks 22 36 }
    ensures c22_35 { outcome rows.c22_35 ≡ breaks 22 34 }
    ensures c22_36 { outcome rows.c22_36 ≡ breaks 22 21 }
    ensures c22_37 { outcome rows.c22_37 ≡ breaks 22 44 }
    ensures c22_38 { outcome rows.c22_38 ≡ breaks 22 20 }
    ensures c22_39 { outcome rows.c22_39 ≡ breaks 22 27 }
{}

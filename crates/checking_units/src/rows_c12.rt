//! C12: pointer to a complete object is needed: what the definition of checking answers.
ghost use Rattle.std.specs.Prelude.{◌≡◌};
ghost use Rattle.checking_units.specs.Parts.{outcome, breaks};
ghost use Rattle.checking_units.specs.RowsC12 as rows;

/// C12: pointer to a complete object is needed.
pub fn rows_c12()
    ensures c12_1 { outcome rows.c12_1 ≡ breaks 12 20 }
    ensures c12_2 { outcome rows.c12_2 ≡ breaks 12 21 }
    ensures c12_3 { outcome rows.c12_3 ≡ breaks 12 23 }
    ensures c12_4 { outcome rows.c12_4 ≡ breaks 12 31 }
    ensures c12_5 { outcome rows.c12_5 ≡ breaks 12 25 }
    ensures c12_6 { outcome rows.c12_6 ≡ breaks 12 29 }
    ensures c12_7 { outcome rows.c12_7 ≡ breaks 12 23 }
    ensures c12_8 { outcome rows.c12_8 ≡ breaks 12 33 }
    ensures c12_9 { outcome rows.c12_9 ≡ breaks 12 33 }
    ensures c12_10 { outcome rows.c12_10 ≡ breaks 12 29 }
{}

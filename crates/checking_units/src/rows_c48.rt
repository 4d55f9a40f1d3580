//! C48: storage class is not allowed here: what the definition of checking answers.
ghost use Rattle.std.specs.Prelude.{◌≡◌};
ghost use Rattle.checking_units.specs.Parts.{outcome, breaks};
ghost use Rattle.checking_units.specs.RowsC48 as rows;

/// C48: storage class is not allowed here.
pub fn rows_c48()
    ensures c48_1 { outcome rows.c48_1 ≡ breaks 48 7 }
    ensures c48_2 { outcome rows.c48_2 ≡ breaks 48 7 }
    ensures c48_3 { outcome rows.c48_3 ≡ breaks 48 7 }
    ensures c48_4 { outcome rows.c48_4 ≡ breaks 48 7 }
    ensures c48_5 { outcome rows.c48_5 ≡ breaks 48 1 }
    ensures c48_6 { outcome rows.c48_6 ≡ breaks 48 1 }
    ensures c48_7 { outcome rows.c48_7 ≡ breaks 48 21 }
    ensures c48_8 { outcome rows.c48_8 ≡ breaks 48 20 }
    ensures c48_9 { outcome rows.c48_9 ≡ breaks 48 16 }
    ensures c48_10 { outcome rows.c48_10 ≡ breaks 48 16 }
    ensures c48_11 { outcome rows.c48_11 ≡ breaks 48 16 }
    ensures c48_12 { outcome rows.c48_12 ≡ breaks 48 16 }
    ensures c48_13 { outcome rows.c48_13 ≡ breaks 48 16 }
    ensures c48_14 { outcome rows.c48_14 ≡ breaks 48 37 }
    ensures c48_15 { outcome rows.c48_15 ≡ breaks 48 16 }
    ensures c48_16 { outcome rows.c48_16 ≡ breaks 48 1 }
    ensures c48_17 { outcome rows.c48_17 ≡ breaks 48 31 }
    ensures c48_18 { outcome rows.c48_18 ≡ breaks 48 16 }
    ensures c48_19 { outcome rows.c48_19 ≡ breaks 48 8 }
    ensures c48_20 { outcome rows.c48_20 ≡ breaks 48 16 }
    ensures c48_21 { outcome rows.c48_21 ≡ breaks 48 21 }
    ensures c48_22 { outcome rows.c48_22 ≡ breaks 48 20 }
    ensures c48_23 { outcome rows.c48_23 ≡ breaks 48 16 }
    ensures c48_24 { outcome rows.c48_24 ≡ breaks 48 30 }
{}

//! C32: constexpr object needs a constant of its type: what the definition of checking answers.
ghost use Rattle.std.specs.Prelude.{◌≡◌};
ghost use Rattle.checking_units.specs.Parts.{outcome, breaks};
ghost use Rattle.checking_units.specs.RowsC32 as rows;

/// C32: constexpr object needs a constant of its type.
pub fn rows_c32()
    ensures c32_1 { outcome rows.c32_1 ≡ breaks 32 15 }
    ensures c32_2 { outcome rows.c32_2 ≡ breaks 32 30 }
    ensures c32_3 { outcome rows.c32_3 ≡ breaks 32 41 }
    ensures c32_4 { outcome rows.c32_4 ≡ breaks 32 34 }
    ensures c32_5 { outcome rows.c32_5 ≡ breaks 32 29 }
    ensures c32_6 { outcome rows.c32_6 ≡ breaks 32 20 }
    ensures c32_7 { outcome rows.c32_7 ≡ breaks 32 26 }
    ensures c32_8 { outcome rows.c32_8 ≡ breaks 32 22 }
    ensures c32_9 { outcome rows.c32_9 ≡ breaks 32 22 }
    ensures c32_10 { outcome rows.c32_10 ≡ breaks 32 45 }
    ensures c32_11 { outcome rows.c32_11 ≡ breaks 32 27 }
    ensures c32_12 { outcome rows.c32_12 ≡ breaks 32 35 }
    ensures c32_13 { outcome rows.c32_13 ≡ breaks 32 30 }
{}

//! C16: value cannot be converted to the wanted type: what the definition of checking answers.
ghost use Rattle.std.specs.Prelude.{◌≡◌};
ghost use Rattle.checking_units.specs.Parts.{outcome, breaks};
ghost use Rattle.checking_units.specs.RowsC16 as rows;

/// C16: value cannot be converted to the wanted type.
pub fn rows_c16()
    ensures c16_1 { outcome rows.c16_1 ≡ breaks 16 41 }
    ensures c16_2 { outcome rows.c16_2 ≡ breaks 16 38 }
    ensures c16_3 { outcome rows.c16_3 ≡ breaks 16 30 }
    ensures c16_4 { outcome rows.c16_4 ≡ breaks 16 31 }
    ensures c16_5 { outcome rows.c16_5 ≡ breaks 16 64 }
    ensures c16_6 { outcome rows.c16_6 ≡ breaks 16 34 }
    ensures c16_7 { outcome rows.c16_7 ≡ breaks 16 55 }
    ensures c16_8 { outcome rows.c16_8 ≡ breaks 16 105 }
    ensures c16_9 { outcome rows.c16_9 ≡ breaks 16 45 }
{}

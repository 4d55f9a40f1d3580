//! C20: operands of ?: do not agree: what the definition of checking answers.
ghost use Rattle.std.specs.Prelude.{◌≡◌};
ghost use Rattle.checking_units.specs.Parts.{outcome, breaks};
ghost use Rattle.checking_units.specs.RowsC20 as rows;

/// C20: operands of ?: do not agree.
pub fn rows_c20()
    ensures c20_1 { outcome rows.c20_1 ≡ breaks 20 33 }
    ensures c20_2 { outcome rows.c20_2 ≡ breaks 20 41 }
    ensures c20_3 { outcome rows.c20_3 ≡ breaks 20 34 }
    ensures c20_4 { outcome rows.c20_4 ≡ breaks 20 27 }
    ensures c20_5 { outcome rows.c20_5 ≡ breaks 20 39 }
{}

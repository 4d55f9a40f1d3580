//! C18: cast is not allowed: what the definition of checking answers.
ghost use Rattle.std.specs.Prelude.{◌≡◌};
ghost use Rattle.checking_units.specs.Parts.{outcome, breaks};
ghost use Rattle.checking_units.specs.RowsC18 as rows;

/// C18: cast is not allowed.
pub fn rows_c18()
    ensures c18_1 { outcome rows.c18_1 ≡ breaks 18 38 }
    ensures c18_2 { outcome rows.c18_2 ≡ breaks 18 18 }
    ensures c18_3 { outcome rows.c18_3 ≡ breaks 18 16 }
    ensures c18_4 { outcome rows.c18_4 ≡ breaks 18 43 }
    ensures c18_5 { outcome rows.c18_5 ≡ breaks 18 23 }
{}

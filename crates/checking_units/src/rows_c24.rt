//! C24: constant expression is undefined: what the definition of checking answers.
ghost use Rattle.std.specs.Prelude.{◌≡◌};
ghost use Rattle.checking_units.specs.Parts.{outcome, breaks};
ghost use Rattle.checking_units.specs.RowsC24 as rows;

/// C24: constant expression is undefined.
pub fn rows_c24()
    ensures c24_1 { outcome rows.c24_1 ≡ breaks 24 12 }
    ensures c24_2 { outcome rows.c24_2 ≡ breaks 24 19 }
    ensures c24_3 { outcome rows.c24_3 ≡ breaks 24 7 }
    ensures c24_4 { outcome rows.c24_4 ≡ breaks 24 27 }
    ensures c24_5 { outcome rows.c24_5 ≡ breaks 24 9 }
    ensures c24_6 { outcome rows.c24_6 ≡ breaks 24 34 }
    ensures c24_7 { outcome rows.c24_7 ≡ breaks 24 34 }
{}

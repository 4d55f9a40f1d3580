//! C19: pointers do not agree: what the definition of checking answers.
ghost use Rattle.std.specs.Prelude.{◌≡◌};
ghost use Rattle.checking_units.specs.Parts.{outcome, breaks};
ghost use Rattle.checking_units.specs.RowsC19 as rows;

/// C19: pointers do not agree.
pub fn rows_c19()
    ensures c19_1 { outcome rows.c19_1 ≡ breaks 19 34 }
    ensures c19_2 { outcome rows.c19_2 ≡ breaks 19 38 }
    ensures c19_3 { outcome rows.c19_3 ≡ breaks 19 46 }
    ensures c19_4 { outcome rows.c19_4 ≡ breaks 19 29 }
    ensures c19_5 { outcome rows.c19_5 ≡ breaks 19 41 }
    ensures c19_6 { outcome rows.c19_6 ≡ breaks 19 44 }
    ensures c19_7 { outcome rows.c19_7 ≡ breaks 19 52 }
{}

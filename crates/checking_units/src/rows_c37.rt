//! C37: definition is no function or has a bad parameter: what the definition of checking answers.
ghost use Rattle.std.specs.Prelude.{◌≡◌};
ghost use Rattle.checking_units.specs.Parts.{outcome, breaks};
ghost use Rattle.checking_units.specs.RowsC37 as rows;

/// C37: definition is no function or has a bad parameter.
pub fn rows_c37()
    ensures c37_1 { outcome rows.c37_1 ≡ breaks 37 24 }
    ensures c37_2 { outcome rows.c37_2 ≡ breaks 37 13 }
    ensures c37_3 { outcome rows.c37_3 ≡ breaks 37 5 }
    ensures c37_4 { outcome rows.c37_4 ≡ breaks 37 5 }
    ensures c37_5 { outcome rows.c37_5 ≡ breaks 37 5 }
    ensures c37_6 { outcome rows.c37_6 ≡ breaks 37 25 }
    ensures c37_7 { outcome rows.c37_7 ≡ breaks 37 25 }
    ensures c37_8 { outcome rows.c37_8 ≡ breaks 37 13 }
    ensures c37_9 { outcome rows.c37_9 ≡ breaks 37 15 }
    ensures c37_10 { outcome rows.c37_10 ≡ breaks 37 5 }
    ensures c37_11 { outcome rows.c37_11 ≡ breaks 37 26 }
{}

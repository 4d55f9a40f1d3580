//! C09: operand has the wrong type: what the definition of checking answers.
ghost use Rattle.std.specs.Prelude.{◌≡◌};
ghost use Rattle.checking_units.specs.Parts.{outcome, breaks};
ghost use Rattle.checking_units.specs.RowsC09 as rows;

/// C09: operand has the wrong type.
pub fn rows_c09()
    ensures c09_1 { outcome rows.c09_1 ≡ breaks 9 45 }
    ensures c09_2 { outcome rows.c09_2 ≡ breaks 9 40 }
    ensures c09_3 { outcome rows.c09_3 ≡ breaks 9 44 }
    ensures c09_4 { outcome rows.c09_4 ≡ breaks 9 43 }
    ensures c09_5 { outcome rows.c09_5 ≡ breaks 9 19 }
    ensures c09_6 { outcome rows.c09_6 ≡ breaks 9 18 }
    ensures c09_7 { outcome rows.c09_7 ≡ breaks 9 20 }
    ensures c09_8 { outcome rows.c09_8 ≡ breaks 9 20 }
    ensures c09_9 { outcome rows.c09_9 ≡ breaks 9 45 }
    ensures c09_10 { outcome rows.c09_10 ≡ breaks 9 18 }
    ensures c09_11 { outcome rows.c09_11 ≡ breaks 9 25 }
{}

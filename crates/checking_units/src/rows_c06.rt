//! C06: tag is of another kind or defined twice: what the definition of checking answers.
ghost use Rattle.std.specs.Prelude.{◌≡◌};
ghost use Rattle.checking_units.specs.Parts.{outcome, breaks};
ghost use Rattle.checking_units.specs.RowsC06 as rows;

/// C06: tag is of another kind or defined twice.
pub fn rows_c06()
    ensures c06_1 { outcome rows.c06_1 ≡ breaks 6 22 }
    ensures c06_2 { outcome rows.c06_2 ≡ breaks 6 27 }
    ensures c06_3 { outcome rows.c06_3 ≡ breaks 6 29 }
    ensures c06_4 { outcome rows.c06_4 ≡ breaks 6 20 }
    ensures c06_5 { outcome rows.c06_5 ≡ breaks 6 19 }
    ensures c06_6 { outcome rows.c06_6 ≡ breaks 6 22 }
    ensures c06_7 { outcome rows.c06_7 ≡ breaks 6 27 }
    ensures c06_8 { outcome rows.c06_8 ≡ breaks 6 16 }
    ensures c06_9 { outcome rows.c06_9 ≡ breaks 6 29 }
    ensures c06_10 { outcome rows.c06_10 ≡ breaks 6 54 }
{}

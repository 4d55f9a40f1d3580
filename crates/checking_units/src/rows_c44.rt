//! C44: deferred statement is left: what the definition of checking answers.
ghost use Rattle.std.specs.Prelude.{◌≡◌};
ghost use Rattle.checking_units.specs.Parts.{outcome, breaks};
ghost use Rattle.checking_units.specs.RowsC44 as rows;

/// C44: deferred statement is left.
pub fn rows_c44()
    ensures c44_1 { outcome rows.c44_1 ≡ breaks 44 34 }
    ensures c44_2 { outcome rows.c44_2 ≡ breaks 44 24 }
    ensures c44_3 { outcome rows.c44_3 ≡ breaks 44 48 }
    ensures c44_4 { outcome rows.c44_4 ≡ breaks 44 21 }
    ensures c44_5 { outcome rows.c44_5 ≡ breaks 44 40 }
{}

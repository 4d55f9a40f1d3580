//! C47: main has the wrong type: what the definition of checking answers.
ghost use Rattle.std.specs.Prelude.{◌≡◌};
ghost use Rattle.checking_units.specs.Parts.{outcome, breaks};
ghost use Rattle.checking_units.specs.RowsC47 as rows;

/// C47: main has the wrong type.
pub fn rows_c47()
    ensures c47_1 { outcome rows.c47_1 ≡ breaks 47 5 }
    ensures c47_2 { outcome rows.c47_2 ≡ breaks 47 6 }
    ensures c47_3 { outcome rows.c47_3 ≡ breaks 47 5 }
    ensures c47_4 { outcome rows.c47_4 ≡ breaks 47 5 }
    ensures c47_5 { outcome rows.c47_5 ≡ breaks 47 5 }
{}

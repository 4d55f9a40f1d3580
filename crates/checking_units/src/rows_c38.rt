//! C38: variadic function is defined: what the definition of checking answers.
ghost use Rattle.std.specs.Prelude.{◌≡◌};
ghost use Rattle.checking_units.specs.Parts.{outcome, breaks};
ghost use Rattle.checking_units.specs.RowsC38 as rows;

/// C38: variadic function is defined.
pub fn rows_c38()
    ensures c38_1 { outcome rows.c38_1 ≡ breaks 38 5 }
    ensures c38_2 { outcome rows.c38_2 ≡ breaks 38 25 }
    ensures c38_3 { outcome rows.c38_3 ≡ breaks 38 5 }
    ensures c38_4 { outcome rows.c38_4 ≡ breaks 38 16 }
{}

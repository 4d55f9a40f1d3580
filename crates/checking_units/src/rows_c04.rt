//! C04: linkage of declarations disagrees: what the definition of checking answers.
ghost use Rattle.std.specs.Prelude.{◌≡◌};
ghost use Rattle.checking_units.specs.Parts.{outcome, breaks};
ghost use Rattle.checking_units.specs.RowsC04 as rows;

/// C04: linkage of declarations disagrees.
pub fn rows_c04()
    ensures c04_1 { outcome rows.c04_1 ≡ breaks 4 19 }
    ensures c04_2 { outcome rows.c04_2 ≡ breaks 4 25 }
    ensures c04_3 { outcome rows.c04_3 ≡ breaks 4 50 }
    ensures c04_4 { outcome rows.c04_4 ≡ breaks 4 32 }
    ensures c04_5 { outcome rows.c04_5 ≡ breaks 4 67 }
{}

//! C36: static_assert failed: what the definition of checking answers.
ghost use Rattle.std.specs.Prelude.{◌≡◌};
ghost use Rattle.checking_units.specs.Parts.{outcome, breaks};
ghost use Rattle.checking_units.specs.RowsC36 as rows;

/// C36: static_assert failed.
pub fn rows_c36()
    ensures c36_1 { outcome rows.c36_1 ≡ breaks 36 1 }
    ensures c36_2 { outcome rows.c36_2 ≡ breaks 36 19 }
    ensures c36_3 { outcome rows.c36_3 ≡ breaks 36 1 }
    ensures c36_4 { outcome rows.c36_4 ≡ breaks 36 16 }
    ensures c36_5 { outcome rows.c36_5 ≡ breaks 36 19 }
{}

//! C41: case value is repeated: what the definition of checking answers.
ghost use Rattle.std.specs.Prelude.{◌≡◌};
ghost use Rattle.checking_units.specs.Parts.{outcome, breaks};
ghost use Rattle.checking_units.specs.RowsC41 as rows;

/// C41: case value is repeated.
pub fn rows_c41()
    ensures c41_1 { outcome rows.c41_1 ≡ breaks 41 49 }
    ensures c41_2 { outcome rows.c41_2 ≡ breaks 41 50 }
    ensures c41_3 { outcome rows.c41_3 ≡ breaks 41 45 }
    ensures c41_4 { outcome rows.c41_4 ≡ breaks 41 45 }
{}

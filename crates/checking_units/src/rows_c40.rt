//! C40: case or default stands outside a switch body: what the definition of checking answers.
ghost use Rattle.std.specs.Prelude.{◌≡◌};
ghost use Rattle.checking_units.specs.Parts.{outcome, breaks};
ghost use Rattle.checking_units.specs.RowsC40 as rows;

/// C40: case or default stands outside a switch body.
pub fn rows_c40()
    ensures c40_1 { outcome rows.c40_1 ≡ breaks 40 32 }
    ensures c40_2 { outcome rows.c40_2 ≡ breaks 40 17 }
    ensures c40_3 { outcome rows.c40_3 ≡ breaks 40 16 }
    ensures c40_4 { outcome rows.c40_4 ≡ breaks 40 16 }
{}

//! C30: enumerator is out of range: what the definition of checking answers.
ghost use Rattle.std.specs.Prelude.{◌≡◌};
ghost use Rattle.checking_units.specs.Parts.{outcome, breaks};
ghost use Rattle.checking_units.specs.RowsC30 as rows;

/// C30: enumerator is out of range.
pub fn rows_c30()
    ensures c30_1 { outcome rows.c30_1 ≡ breaks 30 38 }
    ensures c30_2 { outcome rows.c30_2 ≡ breaks 30 21 }
    ensures c30_3 { outcome rows.c30_3 ≡ breaks 30 8 }
    ensures c30_4 { outcome rows.c30_4 ≡ breaks 30 24 }
    ensures c30_5 { outcome rows.c30_5 ≡ breaks 30 15 }
{}

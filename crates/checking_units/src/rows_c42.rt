//! C42: break or continue stands outside: what the definition of checking answers.
ghost use Rattle.std.specs.Prelude.{◌≡◌};
ghost use Rattle.checking_units.specs.Parts.{outcome, breaks};
ghost use Rattle.checking_units.specs.RowsC42 as rows;

/// C42: break or continue stands outside.
pub fn rows_c42()
    ensures c42_1 { outcome rows.c42_1 ≡ breaks 42 24 }
    ensures c42_2 { outcome rows.c42_2 ≡ breaks 42 16 }
    ensures c42_3 { outcome rows.c42_3 ≡ breaks 42 38 }
{}

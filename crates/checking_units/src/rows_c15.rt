//! C15: wrong number of arguments: what the definition of checking answers.
ghost use Rattle.std.specs.Prelude.{◌≡◌};
ghost use Rattle.checking_units.specs.Parts.{outcome, breaks};
ghost use Rattle.checking_units.specs.RowsC15 as rows;

/// C15: wrong number of arguments.
pub fn rows_c15()
    ensures c15_1 { outcome rows.c15_1 ≡ breaks 15 36 }
    ensures c15_2 { outcome rows.c15_2 ≡ breaks 15 32 }
    ensures c15_3 { outcome rows.c15_3 ≡ breaks 15 54 }
{}

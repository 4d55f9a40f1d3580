//! C14: called value is no function: what the definition of checking answers.
ghost use Rattle.std.specs.Prelude.{◌≡◌};
ghost use Rattle.checking_units.specs.Parts.{outcome, breaks};
ghost use Rattle.checking_units.specs.RowsC14 as rows;

/// C14: called value is no function.
pub fn rows_c14()
    ensures c14_1 { outcome rows.c14_1 ≡ breaks 14 30 }
    ensures c14_2 { outcome rows.c14_2 ≡ breaks 14 17 }
    ensures c14_3 { outcome rows.c14_3 ≡ breaks 14 17 }
{}

//! C43: defer stands directly in a switch body: what the definition of checking answers.
ghost use Rattle.std.specs.Prelude.{◌≡◌};
ghost use Rattle.checking_units.specs.Parts.{outcome, breaks};
ghost use Rattle.checking_units.specs.RowsC43 as rows;

/// C43: defer stands directly in a switch body.
pub fn rows_c43()
    ensures c43_1 { outcome rows.c43_1 ≡ breaks 43 42 }
    ensures c43_2 { outcome rows.c43_2 ≡ breaks 43 52 }
{}

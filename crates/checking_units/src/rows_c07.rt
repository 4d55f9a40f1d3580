//! C07: built-in function is defined or declared otherwise: what the definition of checking answers.
ghost use Rattle.std.specs.Prelude.{◌≡◌};
ghost use Rattle.checking_units.specs.Parts.{outcome, breaks};
ghost use Rattle.checking_units.specs.RowsC07 as rows;

/// C07: built-in function is defined or declared otherwise.
pub fn rows_c07()
    ensures c07_1 { outcome rows.c07_1 ≡ breaks 7 5 }
    ensures c07_2 { outcome rows.c07_2 ≡ breaks 7 13 }
    ensures c07_3 { outcome rows.c07_3 ≡ breaks 7 6 }
    ensures c07_4 { outcome rows.c07_4 ≡ breaks 7 6 }
{}

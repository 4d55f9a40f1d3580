//! C45: return does not fit the result: what the definition of checking answers.
ghost use Rattle.std.specs.Prelude.{◌≡◌};
ghost use Rattle.checking_units.specs.Parts.{outcome, breaks};
ghost use Rattle.checking_units.specs.RowsC45 as rows;

/// C45: return does not fit the result.
pub fn rows_c45()
    ensures c45_1 { outcome rows.c45_1 ≡ breaks 45 16 }
    ensures c45_2 { outcome rows.c45_2 ≡ breaks 45 15 }
    ensures c45_3 { outcome rows.c45_3 ≡ breaks 45 16 }
{}

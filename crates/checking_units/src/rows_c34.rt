//! C34: designator does not fit: what the definition of checking answers.
ghost use Rattle.std.specs.Prelude.{◌≡◌};
ghost use Rattle.checking_units.specs.Parts.{outcome, breaks};
ghost use Rattle.checking_units.specs.RowsC34 as rows;

/// C34: designator does not fit.
pub fn rows_c34()
    ensures c34_1 { outcome rows.c34_1 ≡ breaks 34 10 }
    ensures c34_2 { outcome rows.c34_2 ≡ breaks 34 27 }
    ensures c34_3 { outcome rows.c34_3 ≡ breaks 34 14 }
    ensures c34_4 { outcome rows.c34_4 ≡ breaks 34 27 }
{}

//! C08: internal function is used and not defined: what the definition of checking answers.
ghost use Rattle.std.specs.Prelude.{◌≡◌};
ghost use Rattle.checking_units.specs.Parts.{outcome, breaks};
ghost use Rattle.checking_units.specs.RowsC08 as rows;

/// C08: internal function is used and not defined.
pub fn rows_c08()
    ensures c08_1 { outcome rows.c08_1 ≡ breaks 8 42 }
    ensures c08_2 { outcome rows.c08_2 ≡ breaks 8 76 }
    ensures c08_3 { outcome rows.c08_3 ≡ breaks 8 42 }
{}

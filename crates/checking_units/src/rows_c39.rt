//! C39: function or object is defined twice: what the definition of checking answers.
ghost use Rattle.std.specs.Prelude.{◌≡◌};
ghost use Rattle.checking_units.specs.Parts.{outcome, breaks};
ghost use Rattle.checking_units.specs.RowsC39 as rows;

/// C39: function or object is defined twice.
pub fn rows_c39()
    ensures c39_1 { outcome rows.c39_1 ≡ breaks 39 16 }
    ensures c39_2 { outcome rows.c39_2 ≡ breaks 39 31 }
    ensures c39_3 { outcome rows.c39_3 ≡ breaks 39 38 }
    ensures c39_4 { outcome rows.c39_4 ≡ breaks 39 16 }
    ensures c39_5 { outcome rows.c39_5 ≡ breaks 39 16 }
{}

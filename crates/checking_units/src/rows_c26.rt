//! C26: function literal names an automatic object of its surroundings: what the definition of checking answers.
ghost use Rattle.std.specs.Prelude.{◌≡◌};
ghost use Rattle.checking_units.specs.Parts.{outcome, breaks};
ghost use Rattle.checking_units.specs.RowsC26 as rows;

/// C26: function literal names an automatic object of its surroundings.
pub fn rows_c26()
    ensures c26_1 { outcome rows.c26_1 ≡ breaks 26 45 }
    ensures c26_2 { outcome rows.c26_2 ≡ breaks 26 59 }
    ensures c26_3 { outcome rows.c26_3 ≡ breaks 26 74 }
    ensures c26_4 { outcome rows.c26_4 ≡ breaks 26 46 }
    ensures c26_5 { outcome rows.c26_5 ≡ breaks 26 84 }
{}

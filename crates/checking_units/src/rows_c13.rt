//! C13: no such member: what the definition of checking answers.
ghost use Rattle.std.specs.Prelude.{◌≡◌};
ghost use Rattle.checking_units.specs.Parts.{outcome, breaks};
ghost use Rattle.checking_units.specs.RowsC13 as rows;

/// C13: no such member.
pub fn rows_c13()
    ensures c13_1 { outcome rows.c13_1 ≡ breaks 13 21 }
    ensures c13_2 { outcome rows.c13_2 ≡ breaks 13 47 }
    ensures c13_3 { outcome rows.c13_3 ≡ breaks 13 47 }
    ensures c13_4 { outcome rows.c13_4 ≡ breaks 13 37 }
{}

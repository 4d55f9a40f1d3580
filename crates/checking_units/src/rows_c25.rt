//! C25: array length or type size is out of range: what the definition of checking answers.
ghost use Rattle.std.specs.Prelude.{◌≡◌};
ghost use Rattle.checking_units.specs.Parts.{outcome, breaks};
ghost use Rattle.checking_units.specs.RowsC25 as rows;

/// C25: array length or type size is out of range.
pub fn rows_c25()
    ensures c25_1 { outcome rows.c25_1 ≡ breaks 25 1 }
    ensures c25_2 { outcome rows.c25_2 ≡ breaks 25 17 }
    ensures c25_3 { outcome rows.c25_3 ≡ breaks 25 7 }
    ensures c25_4 { outcome rows.c25_4 ≡ breaks 25 7 }
    ensures c25_5 { outcome rows.c25_5 ≡ breaks 25 6 }
    ensures c25_6 { outcome rows.c25_6 ≡ breaks 25 5 }
    ensures c25_7 { outcome rows.c25_7 ≡ breaks 25 6 }
    ensures c25_8 { outcome rows.c25_8 ≡ breaks 25 13 }
    ensures c25_9 { outcome rows.c25_9 ≡ breaks 25 19 }
    ensures c25_10 { outcome rows.c25_10 ≡ breaks 25 1 }
{}

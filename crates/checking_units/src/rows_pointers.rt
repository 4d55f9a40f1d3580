//! pointers: what the definition of checking answers.
ghost use Rattle.std.specs.Prelude.{◌≡◌};
ghost use Rattle.checking_units.specs.Parts.{outcome, accepted, breaks};
ghost use Rattle.checking_units.specs.RowsPointers as rows;

/// pointers.
pub fn rows_pointers()
    ensures pointers_1 { outcome rows.pointers_1 ≡ accepted }
    ensures pointers_2 { outcome rows.pointers_2 ≡ breaks 9 20 }
    ensures pointers_3 { outcome rows.pointers_3 ≡ breaks 9 20 }
    ensures pointers_4 { outcome rows.pointers_4 ≡ breaks 9 18 }
    ensures pointers_5 { outcome rows.pointers_5 ≡ breaks 9 20 }
    ensures pointers_6 { outcome rows.pointers_6 ≡ breaks 9 20 }
    ensures pointers_7 { outcome rows.pointers_7 ≡ breaks 9 37 }
    ensures pointers_8 { outcome rows.pointers_8 ≡ breaks 12 33 }
    ensures pointers_9 { outcome rows.pointers_9 ≡ breaks 12 35 }
    ensures pointers_10 { outcome rows.pointers_10 ≡ breaks 12 33 }
    ensures pointers_11 { outcome rows.pointers_11 ≡ breaks 12 34 }
    ensures pointers_12 { outcome rows.pointers_12 ≡ breaks 12 29 }
    ensures pointers_13 { outcome rows.pointers_13 ≡ breaks 12 22 }
    ensures pointers_14 { outcome rows.pointers_14 ≡ breaks 12 24 }
    ensures pointers_15 { outcome rows.pointers_15 ≡ breaks 9 24 }
{}

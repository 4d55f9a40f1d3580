//! faulty declarators: what the definition of checking answers.
ghost use Rattle.std.specs.Prelude.{◌≡◌};
ghost use Rattle.checking_units.specs.Parts.{outcome, breaks};
ghost use Rattle.checking_units.specs.RowsFaultyDeclarators1 as rows;

/// faulty declarators.
pub fn rows_faulty_declarators_1()
    ensures faulty_declarators_1 { outcome rows.faulty_declarators_1 ≡ breaks 28 13 }
    ensures faulty_declarators_2 { outcome rows.faulty_declarators_2 ≡ breaks 28 13 }
    ensures faulty_declarators_3 { outcome rows.faulty_declarators_3 ≡ breaks 37 6 }
    ensures faulty_declarators_4 { outcome rows.faulty_declarators_4 ≡ breaks 37 16 }
    ensures faulty_declarators_5 { outcome rows.faulty_declarators_5 ≡ breaks 5 13 }
    ensures faulty_declarators_6 { outcome rows.faulty_declarators_6 ≡ breaks 5 13 }
    ensures faulty_declarators_7 { outcome rows.faulty_declarators_7 ≡ breaks 28 18 }
    ensures faulty_declarators_8 { outcome rows.faulty_declarators_8 ≡ breaks 28 26 }
    ensures faulty_declarators_9 { outcome rows.faulty_declarators_9 ≡ breaks 28 18 }
    ensures faulty_declarators_10 { outcome rows.faulty_declarators_10 ≡ breaks 28 30 }
    ensures faulty_declarators_11 { outcome rows.faulty_declarators_11 ≡ breaks 29 8 }
    ensures faulty_declarators_12 { outcome rows.faulty_declarators_12 ≡ breaks 29 14 }
    ensures faulty_declarators_13 { outcome rows.faulty_declarators_13 ≡ breaks 29 19 }
    ensures faulty_declarators_14 { outcome rows.faulty_declarators_14 ≡ breaks 29 24 }
    ensures faulty_declarators_15 { outcome rows.faulty_declarators_15 ≡ breaks 5 18 }
    ensures faulty_declarators_16 { outcome rows.faulty_declarators_16 ≡ breaks 25 5 }
    ensures faulty_declarators_17 { outcome rows.faulty_declarators_17 ≡ breaks 25 6 }
    ensures faulty_declarators_18 { outcome rows.faulty_declarators_18 ≡ breaks 5 20 }
    ensures faulty_declarators_19 { outcome rows.faulty_declarators_19 ≡ breaks 5 10 }
    ensures faulty_declarators_20 { outcome rows.faulty_declarators_20 ≡ breaks 28 5 }
    ensures faulty_declarators_21 { outcome rows.faulty_declarators_21 ≡ breaks 28 5 }
    ensures faulty_declarators_22 { outcome rows.faulty_declarators_22 ≡ breaks 28 5 }
    ensures faulty_declarators_23 { outcome rows.faulty_declarators_23 ≡ breaks 22 5 }
    ensures faulty_declarators_24 { outcome rows.faulty_declarators_24 ≡ breaks 5 19 }
{}

//! faulty declarators: what the definition of checking answers.
ghost use Rattle.std.specs.Prelude.{◌≡◌};
ghost use Rattle.checking_units.specs.Parts.{outcome, breaks};
ghost use Rattle.checking_units.specs.RowsFaultyDeclarators2 as rows;

/// faulty declarators.
pub fn rows_faulty_declarators_2()
    ensures faulty_declarators_25 { outcome rows.faulty_declarators_25 ≡ breaks 5 12 }
    ensures faulty_declarators_26 { outcome rows.faulty_declarators_26 ≡ breaks 22 27 }
    ensures faulty_declarators_27 { outcome rows.faulty_declarators_27 ≡ breaks 22 16 }
    ensures faulty_declarators_28 { outcome rows.faulty_declarators_28 ≡ breaks 22 16 }
    ensures faulty_declarators_29 { outcome rows.faulty_declarators_29 ≡ breaks 22 39 }
    ensures faulty_declarators_30 { outcome rows.faulty_declarators_30 ≡ breaks 22 24 }
    ensures faulty_declarators_31 { outcome rows.faulty_declarators_31 ≡ breaks 22 10 }
    ensures faulty_declarators_32 { outcome rows.faulty_declarators_32 ≡ breaks 22 27 }
    ensures faulty_declarators_33 { outcome rows.faulty_declarators_33 ≡ breaks 22 5 }
    ensures faulty_declarators_34 { outcome rows.faulty_declarators_34 ≡ breaks 38 5 }
    ensures faulty_declarators_35 { outcome rows.faulty_declarators_35 ≡ breaks 38 16 }
    ensures faulty_declarators_36 { outcome rows.faulty_declarators_36 ≡ breaks 47 6 }
    ensures faulty_declarators_37 { outcome rows.faulty_declarators_37 ≡ breaks 47 5 }
    ensures faulty_declarators_38 { outcome rows.faulty_declarators_38 ≡ breaks 47 5 }
    ensures faulty_declarators_39 { outcome rows.faulty_declarators_39 ≡ breaks 47 5 }
    ensures faulty_declarators_40 { outcome rows.faulty_declarators_40 ≡ breaks 47 5 }
    ensures faulty_declarators_41 { outcome rows.faulty_declarators_41 ≡ breaks 47 6 }
    ensures faulty_declarators_42 { outcome rows.faulty_declarators_42 ≡ breaks 5 31 }
    ensures faulty_declarators_43 { outcome rows.faulty_declarators_43 ≡ breaks 5 16 }
    ensures faulty_declarators_44 { outcome rows.faulty_declarators_44 ≡ breaks 5 25 }
    ensures faulty_declarators_45 { outcome rows.faulty_declarators_45 ≡ breaks 32 15 }
    ensures faulty_declarators_46 { outcome rows.faulty_declarators_46 ≡ breaks 31 6 }
{}

//! casts to faulty types: what the definition of checking answers.
ghost use Rattle.std.specs.Prelude.{◌≡◌};
ghost use Rattle.checking_units.specs.Parts.{outcome, breaks};
ghost use Rattle.checking_units.specs.RowsCastsToFaultyTypes as rows;

/// casts to faulty types.
pub fn rows_casts_to_faulty_types()
    ensures casts_to_faulty_types_1 { outcome rows.casts_to_faulty_types_1 ≡ breaks 18 37 }
    ensures casts_to_faulty_types_2 { outcome rows.casts_to_faulty_types_2 ≡ breaks 18 16 }
    ensures casts_to_faulty_types_3 { outcome rows.casts_to_faulty_types_3 ≡ breaks 18 16 }
    ensures casts_to_faulty_types_4 { outcome rows.casts_to_faulty_types_4 ≡ breaks 18 16 }
    ensures casts_to_faulty_types_5 { outcome rows.casts_to_faulty_types_5 ≡ breaks 18 18 }
{}

//! conversions by assignment: what the definition of checking answers.
ghost use Rattle.std.specs.Prelude.{◌≡◌};
ghost use Rattle.checking_units.specs.Parts.{outcome, accepted, breaks};
ghost use Rattle.checking_units.specs.RowsConversionsByAssignment as rows;

/// conversions by assignment.
pub fn rows_conversions_by_assignment()
    ensures conversions_by_assignment_1 { outcome rows.conversions_by_assignment_1 ≡ breaks 16 22 }
    ensures conversions_by_assignment_2 { outcome rows.conversions_by_assignment_2 ≡ breaks 16 37 }
    ensures conversions_by_assignment_3 { outcome rows.conversions_by_assignment_3 ≡ accepted }
    ensures conversions_by_assignment_4 { outcome rows.conversions_by_assignment_4 ≡ breaks 17 49 }
    ensures conversions_by_assignment_5 { outcome rows.conversions_by_assignment_5 ≡ accepted }
    ensures conversions_by_assignment_6 { outcome rows.conversions_by_assignment_6 ≡ breaks 16 66 }
    ensures conversions_by_assignment_7 { outcome rows.conversions_by_assignment_7 ≡ breaks 17 43 }
    ensures conversions_by_assignment_8 { outcome rows.conversions_by_assignment_8 ≡ breaks 17 77 }
    ensures conversions_by_assignment_9 { outcome rows.conversions_by_assignment_9 ≡ accepted }
    ensures conversions_by_assignment_10 { outcome rows.conversions_by_assignment_10 ≡ breaks 17 78 }
    ensures conversions_by_assignment_11 { outcome rows.conversions_by_assignment_11 ≡ breaks 16 38 }
{}

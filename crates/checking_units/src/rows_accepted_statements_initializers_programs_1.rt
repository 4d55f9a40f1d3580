//! accepted: statements, initializers, programs: what the definition of checking answers.
ghost use Rattle.std.specs.Prelude.{◌≡◌};
ghost use Rattle.checking_units.specs.Parts.{outcome, accepted};
ghost use Rattle.checking_units.specs.RowsAcceptedStatementsInitializersPrograms1 as rows;

/// accepted: statements, initializers, programs.
pub fn rows_accepted_statements_initializers_programs_1()
    ensures accepted_statements_initializers_programs_1 { outcome rows.accepted_statements_initializers_programs_1 ≡ accepted }
    ensures accepted_statements_initializers_programs_2 { outcome rows.accepted_statements_initializers_programs_2 ≡ accepted }
    ensures accepted_statements_initializers_programs_3 { outcome rows.accepted_statements_initializers_programs_3 ≡ accepted }
    ensures accepted_statements_initializers_programs_4 { outcome rows.accepted_statements_initializers_programs_4 ≡ accepted }
    ensures accepted_statements_initializers_programs_5 { outcome rows.accepted_statements_initializers_programs_5 ≡ accepted }
    ensures accepted_statements_initializers_programs_6 { outcome rows.accepted_statements_initializers_programs_6 ≡ accepted }
    ensures accepted_statements_initializers_programs_7 { outcome rows.accepted_statements_initializers_programs_7 ≡ accepted }
    ensures accepted_statements_initializers_programs_8 { outcome rows.accepted_statements_initializers_programs_8 ≡ accepted }
    ensures accepted_statements_initializers_programs_9 { outcome rows.accepted_statements_initializers_programs_9 ≡ accepted }
    ensures accepted_statements_initializers_programs_10 { outcome rows.accepted_statements_initializers_programs_10 ≡ accepted }
    ensures accepted_statements_initializers_programs_11 { outcome rows.accepted_statements_initializers_programs_11 ≡ accepted }
    ensures accepted_statements_initializers_programs_12 { outcome rows.accepted_statements_initializers_programs_12 ≡ accepted }
    ensures accepted_statements_initializers_programs_13 { outcome rows.accepted_statements_initializers_programs_13 ≡ accepted }
    ensures accepted_statements_initializers_programs_14 { outcome rows.accepted_statements_initializers_programs_14 ≡ accepted }
    ensures accepted_statements_initializers_programs_15 { outcome rows.accepted_statements_initializers_programs_15 ≡ accepted }
    ensures accepted_statements_initializers_programs_16 { outcome rows.accepted_statements_initializers_programs_16 ≡ accepted }
    ensures accepted_statements_initializers_programs_17 { outcome rows.accepted_statements_initializers_programs_17 ≡ accepted }
    ensures accepted_statements_initializers_programs_18 { outcome rows.accepted_statements_initializers_programs_18 ≡ accepted }
    ensures accepted_statements_initializers_programs_19 { outcome rows.accepted_statements_initializers_programs_19 ≡ accepted }
    ensures accepted_statements_initializers_programs_20 { outcome rows.accepted_statements_initializers_programs_20 ≡ accepted }
    ensures accepted_statements_initializers_programs_21 { outcome rows.accepted_statements_initializers_programs_21 ≡ accepted }
    ensures accepted_statements_initializers_programs_22 { outcome rows.accepted_statements_initializers_programs_22 ≡ accepted }
    ensures accepted_statements_initializers_programs_23 { outcome rows.accepted_statements_initializers_programs_23 ≡ accepted }
    ensures accepted_statements_initializers_programs_24 { outcome rows.accepted_statements_initializers_programs_24 ≡ accepted }
{}

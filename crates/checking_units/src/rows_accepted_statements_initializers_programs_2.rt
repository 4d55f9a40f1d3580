//! accepted: statements, initializers, programs: what the definition of checking answers.
ghost use Rattle.std.specs.Prelude.{◌≡◌};
ghost use Rattle.checking_units.specs.Parts.{outcome, accepted};
ghost use Rattle.checking_units.specs.RowsAcceptedStatementsInitializersPrograms2 as rows;

/// accepted: statements, initializers, programs.
pub fn rows_accepted_statements_initializers_programs_2()
    ensures accepted_statements_initializers_programs_25 { outcome rows.accepted_statements_initializers_programs_25 ≡ accepted }
    ensures accepted_statements_initializers_programs_26 { outcome rows.accepted_statements_initializers_programs_26 ≡ accepted }
    ensures accepted_statements_initializers_programs_27 { outcome rows.accepted_statements_initializers_programs_27 ≡ accepted }
    ensures accepted_statements_initializers_programs_28 { outcome rows.accepted_statements_initializers_programs_28 ≡ accepted }
    ensures accepted_statements_initializers_programs_29 { outcome rows.accepted_statements_initializers_programs_29 ≡ accepted }
    ensures accepted_statements_initializers_programs_30 { outcome rows.accepted_statements_initializers_programs_30 ≡ accepted }
    ensures accepted_statements_initializers_programs_31 { outcome rows.accepted_statements_initializers_programs_31 ≡ accepted }
    ensures accepted_statements_initializers_programs_32 { outcome rows.accepted_statements_initializers_programs_32 ≡ accepted }
    ensures accepted_statements_initializers_programs_33 { outcome rows.accepted_statements_initializers_programs_33 ≡ accepted }
    ensures accepted_statements_initializers_programs_34 { outcome rows.accepted_statements_initializers_programs_34 ≡ accepted }
    ensures accepted_statements_initializers_programs_35 { outcome rows.accepted_statements_initializers_programs_35 ≡ accepted }
    ensures accepted_statements_initializers_programs_36 { outcome rows.accepted_statements_initializers_programs_36 ≡ accepted }
    ensures accepted_statements_initializers_programs_37 { outcome rows.accepted_statements_initializers_programs_37 ≡ accepted }
    ensures accepted_statements_initializers_programs_38 { outcome rows.accepted_statements_initializers_programs_38 ≡ accepted }
    ensures accepted_statements_initializers_programs_39 { outcome rows.accepted_statements_initializers_programs_39 ≡ accepted }
    ensures accepted_statements_initializers_programs_40 { outcome rows.accepted_statements_initializers_programs_40 ≡ accepted }
    ensures accepted_statements_initializers_programs_41 { outcome rows.accepted_statements_initializers_programs_41 ≡ accepted }
    ensures accepted_statements_initializers_programs_42 { outcome rows.accepted_statements_initializers_programs_42 ≡ accepted }
    ensures accepted_statements_initializers_programs_43 { outcome rows.accepted_statements_initializers_programs_43 ≡ accepted }
    ensures accepted_statements_initializers_programs_44 { outcome rows.accepted_statements_initializers_programs_44 ≡ accepted }
    ensures accepted_statements_initializers_programs_45 { outcome rows.accepted_statements_initializers_programs_45 ≡ accepted }
    ensures accepted_statements_initializers_programs_46 { outcome rows.accepted_statements_initializers_programs_46 ≡ accepted }
    ensures accepted_statements_initializers_programs_47 { outcome rows.accepted_statements_initializers_programs_47 ≡ accepted }
    ensures accepted_statements_initializers_programs_48 { outcome rows.accepted_statements_initializers_programs_48 ≡ accepted }
{}

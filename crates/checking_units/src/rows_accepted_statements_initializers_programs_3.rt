//! accepted: statements, initializers, programs: what the definition of checking answers.
ghost use Rattle.std.specs.Prelude.{◌≡◌};
ghost use Rattle.checking_units.specs.Parts.{outcome, accepted};
ghost use Rattle.checking_units.specs.RowsAcceptedStatementsInitializersPrograms3 as rows;

/// accepted: statements, initializers, programs.
pub fn rows_accepted_statements_initializers_programs_3()
    ensures accepted_statements_initializers_programs_49 { outcome rows.accepted_statements_initializers_programs_49 ≡ accepted }
    ensures accepted_statements_initializers_programs_50 { outcome rows.accepted_statements_initializers_programs_50 ≡ accepted }
    ensures accepted_statements_initializers_programs_51 { outcome rows.accepted_statements_initializers_programs_51 ≡ accepted }
    ensures accepted_statements_initializers_programs_52 { outcome rows.accepted_statements_initializers_programs_52 ≡ accepted }
    ensures accepted_statements_initializers_programs_53 { outcome rows.accepted_statements_initializers_programs_53 ≡ accepted }
    ensures accepted_statements_initializers_programs_54 { outcome rows.accepted_statements_initializers_programs_54 ≡ accepted }
    ensures accepted_statements_initializers_programs_55 { outcome rows.accepted_statements_initializers_programs_55 ≡ accepted }
    ensures accepted_statements_initializers_programs_56 { outcome rows.accepted_statements_initializers_programs_56 ≡ accepted }
    ensures accepted_statements_initializers_programs_57 { outcome rows.accepted_statements_initializers_programs_57 ≡ accepted }
    ensures accepted_statements_initializers_programs_58 { outcome rows.accepted_statements_initializers_programs_58 ≡ accepted }
    ensures accepted_statements_initializers_programs_59 { outcome rows.accepted_statements_initializers_programs_59 ≡ accepted }
    ensures accepted_statements_initializers_programs_60 { outcome rows.accepted_statements_initializers_programs_60 ≡ accepted }
    ensures accepted_statements_initializers_programs_61 { outcome rows.accepted_statements_initializers_programs_61 ≡ accepted }
    ensures accepted_statements_initializers_programs_62 { outcome rows.accepted_statements_initializers_programs_62 ≡ accepted }
    ensures accepted_statements_initializers_programs_63 { outcome rows.accepted_statements_initializers_programs_63 ≡ accepted }
    ensures accepted_statements_initializers_programs_64 { outcome rows.accepted_statements_initializers_programs_64 ≡ accepted }
    ensures accepted_statements_initializers_programs_65 { outcome rows.accepted_statements_initializers_programs_65 ≡ accepted }
    ensures accepted_statements_initializers_programs_66 { outcome rows.accepted_statements_initializers_programs_66 ≡ accepted }
    ensures accepted_statements_initializers_programs_67 { outcome rows.accepted_statements_initializers_programs_67 ≡ accepted }
    ensures accepted_statements_initializers_programs_68 { outcome rows.accepted_statements_initializers_programs_68 ≡ accepted }
    ensures accepted_statements_initializers_programs_69 { outcome rows.accepted_statements_initializers_programs_69 ≡ accepted }
    ensures accepted_statements_initializers_programs_70 { outcome rows.accepted_statements_initializers_programs_70 ≡ accepted }
    ensures accepted_statements_initializers_programs_71 { outcome rows.accepted_statements_initializers_programs_71 ≡ accepted }
    ensures accepted_statements_initializers_programs_72 { outcome rows.accepted_statements_initializers_programs_72 ≡ accepted }
{}

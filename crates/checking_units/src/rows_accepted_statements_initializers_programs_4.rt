//! accepted: statements, initializers, programs: what the definition of checking answers.
ghost use Rattle.std.specs.Prelude.{◌≡◌};
ghost use Rattle.checking_units.specs.Parts.{outcome, accepted};
ghost use Rattle.checking_units.specs.RowsAcceptedStatementsInitializersPrograms4 as rows;

/// accepted: statements, initializers, programs.
pub fn rows_accepted_statements_initializers_programs_4()
    ensures accepted_statements_initializers_programs_73 { outcome rows.accepted_statements_initializers_programs_73 ≡ accepted }
    ensures accepted_statements_initializers_programs_74 { outcome rows.accepted_statements_initializers_programs_74 ≡ accepted }
    ensures accepted_statements_initializers_programs_75 { outcome rows.accepted_statements_initializers_programs_75 ≡ accepted }
    ensures accepted_statements_initializers_programs_76 { outcome rows.accepted_statements_initializers_programs_76 ≡ accepted }
    ensures accepted_statements_initializers_programs_77 { outcome rows.accepted_statements_initializers_programs_77 ≡ accepted }
    ensures accepted_statements_initializers_programs_78 { outcome rows.accepted_statements_initializers_programs_78 ≡ accepted }
    ensures accepted_statements_initializers_programs_79 { outcome rows.accepted_statements_initializers_programs_79 ≡ accepted }
    ensures accepted_statements_initializers_programs_80 { outcome rows.accepted_statements_initializers_programs_80 ≡ accepted }
    ensures accepted_statements_initializers_programs_81 { outcome rows.accepted_statements_initializers_programs_81 ≡ accepted }
    ensures accepted_statements_initializers_programs_82 { outcome rows.accepted_statements_initializers_programs_82 ≡ accepted }
    ensures accepted_statements_initializers_programs_83 { outcome rows.accepted_statements_initializers_programs_83 ≡ accepted }
    ensures accepted_statements_initializers_programs_84 { outcome rows.accepted_statements_initializers_programs_84 ≡ accepted }
    ensures accepted_statements_initializers_programs_85 { outcome rows.accepted_statements_initializers_programs_85 ≡ accepted }
    ensures accepted_statements_initializers_programs_86 { outcome rows.accepted_statements_initializers_programs_86 ≡ accepted }
    ensures accepted_statements_initializers_programs_87 { outcome rows.accepted_statements_initializers_programs_87 ≡ accepted }
    ensures accepted_statements_initializers_programs_88 { outcome rows.accepted_statements_initializers_programs_88 ≡ accepted }
    ensures accepted_statements_initializers_programs_89 { outcome rows.accepted_statements_initializers_programs_89 ≡ accepted }
{}

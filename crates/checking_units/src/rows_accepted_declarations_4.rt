//! accepted: declarations: what the definition of checking answers.
ghost use Rattle.std.specs.Prelude.{◌≡◌};
ghost use Rattle.checking_units.specs.Parts.{outcome, accepted};
ghost use Rattle.checking_units.specs.RowsAcceptedDeclarations4 as rows;

/// accepted: declarations.
pub fn rows_accepted_declarations_4()
    ensures accepted_declarations_73 { outcome rows.accepted_declarations_73 ≡ accepted }
    ensures accepted_declarations_74 { outcome rows.accepted_declarations_74 ≡ accepted }
    ensures accepted_declarations_75 { outcome rows.accepted_declarations_75 ≡ accepted }
    ensures accepted_declarations_76 { outcome rows.accepted_declarations_76 ≡ accepted }
    ensures accepted_declarations_77 { outcome rows.accepted_declarations_77 ≡ accepted }
    ensures accepted_declarations_78 { outcome rows.accepted_declarations_78 ≡ accepted }
    ensures accepted_declarations_79 { outcome rows.accepted_declarations_79 ≡ accepted }
    ensures accepted_declarations_80 { outcome rows.accepted_declarations_80 ≡ accepted }
    ensures accepted_declarations_81 { outcome rows.accepted_declarations_81 ≡ accepted }
    ensures accepted_declarations_82 { outcome rows.accepted_declarations_82 ≡ accepted }
    ensures accepted_declarations_83 { outcome rows.accepted_declarations_83 ≡ accepted }
    ensures accepted_declarations_84 { outcome rows.accepted_declarations_84 ≡ accepted }
    ensures accepted_declarations_85 { outcome rows.accepted_declarations_85 ≡ accepted }
    ensures accepted_declarations_86 { outcome rows.accepted_declarations_86 ≡ accepted }
    ensures accepted_declarations_87 { outcome rows.accepted_declarations_87 ≡ accepted }
    ensures accepted_declarations_88 { outcome rows.accepted_declarations_88 ≡ accepted }
    ensures accepted_declarations_89 { outcome rows.accepted_declarations_89 ≡ accepted }
    ensures accepted_declarations_90 { outcome rows.accepted_declarations_90 ≡ accepted }
    ensures accepted_declarations_91 { outcome rows.accepted_declarations_91 ≡ accepted }
    ensures accepted_declarations_92 { outcome rows.accepted_declarations_92 ≡ accepted }
    ensures accepted_declarations_93 { outcome rows.accepted_declarations_93 ≡ accepted }
    ensures accepted_declarations_94 { outcome rows.accepted_declarations_94 ≡ accepted }
    ensures accepted_declarations_95 { outcome rows.accepted_declarations_95 ≡ accepted }
    ensures accepted_declarations_96 { outcome rows.accepted_declarations_96 ≡ accepted }
{}

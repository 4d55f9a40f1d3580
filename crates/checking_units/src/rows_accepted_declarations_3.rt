//! accepted: declarations: what the definition of checking answers.
ghost use Rattle.std.specs.Prelude.{◌≡◌};
ghost use Rattle.checking_units.specs.Parts.{outcome, accepted};
ghost use Rattle.checking_units.specs.RowsAcceptedDeclarations3 as rows;

/// accepted: declarations.
pub fn rows_accepted_declarations_3()
    ensures accepted_declarations_49 { outcome rows.accepted_declarations_49 ≡ accepted }
    ensures accepted_declarations_50 { outcome rows.accepted_declarations_50 ≡ accepted }
    ensures accepted_declarations_51 { outcome rows.accepted_declarations_51 ≡ accepted }
    ensures accepted_declarations_52 { outcome rows.accepted_declarations_52 ≡ accepted }
    ensures accepted_declarations_53 { outcome rows.accepted_declarations_53 ≡ accepted }
    ensures accepted_declarations_54 { outcome rows.accepted_declarations_54 ≡ accepted }
    ensures accepted_declarations_55 { outcome rows.accepted_declarations_55 ≡ accepted }
    ensures accepted_declarations_56 { outcome rows.accepted_declarations_56 ≡ accepted }
    ensures accepted_declarations_57 { outcome rows.accepted_declarations_57 ≡ accepted }
    ensures accepted_declarations_58 { outcome rows.accepted_declarations_58 ≡ accepted }
    ensures accepted_declarations_59 { outcome rows.accepted_declarations_59 ≡ accepted }
    ensures accepted_declarations_60 { outcome rows.accepted_declarations_60 ≡ accepted }
    ensures accepted_declarations_61 { outcome rows.accepted_declarations_61 ≡ accepted }
    ensures accepted_declarations_62 { outcome rows.accepted_declarations_62 ≡ accepted }
    ensures accepted_declarations_63 { outcome rows.accepted_declarations_63 ≡ accepted }
    ensures accepted_declarations_64 { outcome rows.accepted_declarations_64 ≡ accepted }
    ensures accepted_declarations_65 { outcome rows.accepted_declarations_65 ≡ accepted }
    ensures accepted_declarations_66 { outcome rows.accepted_declarations_66 ≡ accepted }
    ensures accepted_declarations_67 { outcome rows.accepted_declarations_67 ≡ accepted }
    ensures accepted_declarations_68 { outcome rows.accepted_declarations_68 ≡ accepted }
    ensures accepted_declarations_69 { outcome rows.accepted_declarations_69 ≡ accepted }
    ensures accepted_declarations_70 { outcome rows.accepted_declarations_70 ≡ accepted }
    ensures accepted_declarations_71 { outcome rows.accepted_declarations_71 ≡ accepted }
    ensures accepted_declarations_72 { outcome rows.accepted_declarations_72 ≡ accepted }
{}

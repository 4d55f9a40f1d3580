//! accepted: declarations: what the definition of checking answers.
ghost use Rattle.std.specs.Prelude.{◌≡◌};
ghost use Rattle.checking_units.specs.Parts.{outcome, accepted};
ghost use Rattle.checking_units.specs.RowsAcceptedDeclarations2 as rows;

/// accepted: declarations.
pub fn rows_accepted_declarations_2()
    ensures accepted_declarations_25 { outcome rows.accepted_declarations_25 ≡ accepted }
    ensures accepted_declarations_26 { outcome rows.accepted_declarations_26 ≡ accepted }
    ensures accepted_declarations_27 { outcome rows.accepted_declarations_27 ≡ accepted }
    ensures accepted_declarations_28 { outcome rows.accepted_declarations_28 ≡ accepted }
    ensures accepted_declarations_29 { outcome rows.accepted_declarations_29 ≡ accepted }
    ensures accepted_declarations_30 { outcome rows.accepted_declarations_30 ≡ accepted }
    ensures accepted_declarations_31 { outcome rows.accepted_declarations_31 ≡ accepted }
    ensures accepted_declarations_32 { outcome rows.accepted_declarations_32 ≡ accepted }
    ensures accepted_declarations_33 { outcome rows.accepted_declarations_33 ≡ accepted }
    ensures accepted_declarations_34 { outcome rows.accepted_declarations_34 ≡ accepted }
    ensures accepted_declarations_35 { outcome rows.accepted_declarations_35 ≡ accepted }
    ensures accepted_declarations_36 { outcome rows.accepted_declarations_36 ≡ accepted }
    ensures accepted_declarations_37 { outcome rows.accepted_declarations_37 ≡ accepted }
    ensures accepted_declarations_38 { outcome rows.accepted_declarations_38 ≡ accepted }
    ensures accepted_declarations_39 { outcome rows.accepted_declarations_39 ≡ accepted }
    ensures accepted_declarations_40 { outcome rows.accepted_declarations_40 ≡ accepted }
    ensures accepted_declarations_41 { outcome rows.accepted_declarations_41 ≡ accepted }
    ensures accepted_declarations_42 { outcome rows.accepted_declarations_42 ≡ accepted }
    ensures accepted_declarations_43 { outcome rows.accepted_declarations_43 ≡ accepted }
    ensures accepted_declarations_44 { outcome rows.accepted_declarations_44 ≡ accepted }
    ensures accepted_declarations_45 { outcome rows.accepted_declarations_45 ≡ accepted }
    ensures accepted_declarations_46 { outcome rows.accepted_declarations_46 ≡ accepted }
    ensures accepted_declarations_47 { outcome rows.accepted_declarations_47 ≡ accepted }
    ensures accepted_declarations_48 { outcome rows.accepted_declarations_48 ≡ accepted }
{}

//! accepted: declarations: what the definition of checking answers.
ghost use Rattle.std.specs.Prelude.{◌≡◌};
ghost use Rattle.checking_units.specs.Parts.{outcome, accepted};
ghost use Rattle.checking_units.specs.RowsAcceptedDeclarations1 as rows;

/// accepted: declarations.
pub fn rows_accepted_declarations_1()
    ensures accepted_declarations_1 { outcome rows.accepted_declarations_1 ≡ accepted }
    ensures accepted_declarations_2 { outcome rows.accepted_declarations_2 ≡ accepted }
    ensures accepted_declarations_3 { outcome rows.accepted_declarations_3 ≡ accepted }
    ensures accepted_declarations_4 { outcome rows.accepted_declarations_4 ≡ accepted }
    ensures accepted_declarations_5 { outcome rows.accepted_declarations_5 ≡ accepted }
    ensures accepted_declarations_6 { outcome rows.accepted_declarations_6 ≡ accepted }
    ensures accepted_declarations_7 { outcome rows.accepted_declarations_7 ≡ accepted }
    ensures accepted_declarations_8 { outcome rows.accepted_declarations_8 ≡ accepted }
    ensures accepted_declarations_9 { outcome rows.accepted_declarations_9 ≡ accepted }
    ensures accepted_declarations_10 { outcome rows.accepted_declarations_10 ≡ accepted }
    ensures accepted_declarations_11 { outcome rows.accepted_declarations_11 ≡ accepted }
    ensures accepted_declarations_12 { outcome rows.accepted_declarations_12 ≡ accepted }
    ensures accepted_declarations_13 { outcome rows.accepted_declarations_13 ≡ accepted }
    ensures accepted_declarations_14 { outcome rows.accepted_declarations_14 ≡ accepted }
    ensures accepted_declarations_15 { outcome rows.accepted_declarations_15 ≡ accepted }
    ensures accepted_declarations_16 { outcome rows.accepted_declarations_16 ≡ accepted }
    ensures accepted_declarations_17 { outcome rows.accepted_declarations_17 ≡ accepted }
    ensures accepted_declarations_18 { outcome rows.accepted_declarations_18 ≡ accepted }
    ensures accepted_declarations_19 { outcome rows.accepted_declarations_19 ≡ accepted }
    ensures accepted_declarations_20 { outcome rows.accepted_declarations_20 ≡ accepted }
    ensures accepted_declarations_21 { outcome rows.accepted_declarations_21 ≡ accepted }
    ensures accepted_declarations_22 { outcome rows.accepted_declarations_22 ≡ accepted }
    ensures accepted_declarations_23 { outcome rows.accepted_declarations_23 ≡ accepted }
    ensures accepted_declarations_24 { outcome rows.accepted_declarations_24 ≡ accepted }
{}

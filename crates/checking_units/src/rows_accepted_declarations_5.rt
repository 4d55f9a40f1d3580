//! accepted: declarations: what the definition of checking answers.
ghost use Rattle.std.specs.Prelude.{◌≡◌};
ghost use Rattle.checking_units.specs.Parts.{outcome, accepted};
ghost use Rattle.checking_units.specs.RowsAcceptedDeclarations5 as rows;

/// accepted: declarations.
pub fn rows_accepted_declarations_5()
    ensures accepted_declarations_97 { outcome rows.accepted_declarations_97 ≡ accepted }
{}

//! accepted: expressions: what the definition of checking answers.
ghost use Rattle.std.specs.Prelude.{◌≡◌};
ghost use Rattle.checking_units.specs.Parts.{outcome, accepted};
ghost use Rattle.checking_units.specs.RowsAcceptedExpressions as rows;

/// accepted: expressions.
pub fn rows_accepted_expressions()
    ensures accepted_expressions_1 { outcome rows.accepted_expressions_1 ≡ accepted }
    ensures accepted_expressions_2 { outcome rows.accepted_expressions_2 ≡ accepted }
    ensures accepted_expressions_3 { outcome rows.accepted_expressions_3 ≡ accepted }
    ensures accepted_expressions_4 { outcome rows.accepted_expressions_4 ≡ accepted }
    ensures accepted_expressions_5 { outcome rows.accepted_expressions_5 ≡ accepted }
    ensures accepted_expressions_6 { outcome rows.accepted_expressions_6 ≡ accepted }
    ensures accepted_expressions_7 { outcome rows.accepted_expressions_7 ≡ accepted }
    ensures accepted_expressions_8 { outcome rows.accepted_expressions_8 ≡ accepted }
    ensures accepted_expressions_9 { outcome rows.accepted_expressions_9 ≡ accepted }
    ensures accepted_expressions_10 { outcome rows.accepted_expressions_10 ≡ accepted }
    ensures accepted_expressions_11 { outcome rows.accepted_expressions_11 ≡ accepted }
    ensures accepted_expressions_12 { outcome rows.accepted_expressions_12 ≡ accepted }
    ensures accepted_expressions_13 { outcome rows.accepted_expressions_13 ≡ accepted }
    ensures accepted_expressions_14 { outcome rows.accepted_expressions_14 ≡ accepted }
    ensures accepted_expressions_15 { outcome rows.accepted_expressions_15 ≡ accepted }
    ensures accepted_expressions_16 { outcome rows.accepted_expressions_16 ≡ accepted }
    ensures accepted_expressions_17 { outcome rows.accepted_expressions_17 ≡ accepted }
    ensures accepted_expressions_18 { outcome rows.accepted_expressions_18 ≡ accepted }
    ensures accepted_expressions_19 { outcome rows.accepted_expressions_19 ≡ accepted }
{}

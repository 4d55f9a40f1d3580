//! function literals in expressions: what the definition of checking answers.
ghost use Rattle.std.specs.Prelude.{◌≡◌};
ghost use Rattle.checking_units.specs.Parts.{outcome, accepted, breaks};
ghost use Rattle.checking_units.specs.RowsFunctionLiteralsInExpressions as rows;

/// function literals in expressions.
pub fn rows_function_literals_in_expressions()
    ensures function_literals_in_expressions_1 { outcome rows.function_literals_in_expressions_1 ≡ breaks 16 56 }
    ensures function_literals_in_expressions_2 { outcome rows.function_literals_in_expressions_2 ≡ accepted }
    ensures function_literals_in_expressions_3 { outcome rows.function_literals_in_expressions_3 ≡ breaks 45 39 }
    ensures function_literals_in_expressions_4 { outcome rows.function_literals_in_expressions_4 ≡ accepted }
    ensures function_literals_in_expressions_5 { outcome rows.function_literals_in_expressions_5 ≡ breaks 42 43 }
    ensures function_literals_in_expressions_6 { outcome rows.function_literals_in_expressions_6 ≡ breaks 40 55 }
    ensures function_literals_in_expressions_7 { outcome rows.function_literals_in_expressions_7 ≡ breaks 10 43 }
    ensures function_literals_in_expressions_8 { outcome rows.function_literals_in_expressions_8 ≡ breaks 10 33 }
    ensures function_literals_in_expressions_9 { outcome rows.function_literals_in_expressions_9 ≡ breaks 2 36 }
{}

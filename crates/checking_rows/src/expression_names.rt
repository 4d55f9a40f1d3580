//! Names in expressions.
ghost use Rattle.std.specs.Prelude.{◌≡◌, pos, true, Some, None, [], ◌∷◌, codes, Ok};
ghost use Rattle.std.specs.Result.{is_ok};
ghost use Rattle.model_core.specs.CoreTypes.{int_type};
ghost use Rattle.model_core.specs.Core as unit;
ghost use Rattle.model_checking.specs.Meanings.{a_place, a_value, a_function};
ghost use Rattle.model_checking.specs.State.{Evaluated, Unevaluated};
ghost use Rattle.checking_rows.specs.InitializerParts.{mark};
ghost use Rattle.checking_rows.specs.ExpressionParts.{const, breaks, breaks_rule, int_function};
ghost use Rattle.checking_rows.specs.ExpressionNames as rows;

/// Objects with their known values, functions and enumerators.
pub fn names()
    ensures object { rows.what (codes "x") rows.in_block ≡ Ok (a_place (unit.Object 3 int_type (mark 7)) None) }
    ensures known { rows.what (codes "c") rows.in_block ≡ Ok (a_place (unit.Object 5 (const int_type) (mark 7)) (Some (pos 0))) }
    ensures function { rows.what (codes "f") rows.in_block ≡ Ok (a_function 2 int_function true (mark 7)) }
    ensures enumerator { rows.what (codes "red") rows.in_block ≡ Ok (a_value (unit.Constant (pos 0) int_type (mark 7))) }
    ensures undeclared { rows.what (codes "z") rows.in_block ≡ breaks 5 7 }
    ensures type_name { rows.what (codes "number") rows.in_block ≡ breaks 5 7 }
{}

/// A function literal names no automatic object of its surroundings, not even a `constexpr` one.
pub fn surroundings()
    ensures automatic { rows.what (codes "x") rows.in_literal ≡ breaks 26 7 }
    ensures known { rows.what (codes "c") rows.in_literal ≡ breaks 26 7 }
    ensures static_object { is_ok (rows.what (codes "s") rows.in_literal) ≡ true }
    ensures function { is_ok (rows.what (codes "f") rows.in_literal) ≡ true }
    ensures parameter { is_ok (rows.what (codes "y") rows.in_literal) ≡ true }
{}

/// What isn't evaluated is no use of a function, and takes no address.
pub fn noted_uses()
    ensures evaluated { rows.unmet_after (rows.use_of Evaluated (codes "f") rows.in_block) ≡ breaks_rule 8 7 }
    ensures unevaluated { rows.unmet_after (rows.use_of Unevaluated (codes "f") rows.in_block) ≡ None }
    ensures taken { rows.taken_by Evaluated ≡ 3 ∷ [] }
    ensures not_taken { rows.taken_by Unevaluated ≡ [] }
    ensures star { rows.taken_by_star ≡ [] }
{}

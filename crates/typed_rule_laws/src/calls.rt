//! Laws of calls (ISO/IEC 9899:2024, 6.5.3.3): each function does nothing, and its contract is the law.
ghost use Rattle.std.specs.Prelude.{◌≡◌, true, List, ◌&&◌, None};
ghost use Rattle.std.specs.Result.{IfOk};
ghost use Rattle.cake_base.specs.declared.places.Place.{Place};
ghost use Rattle.model_types.specs.declared.marks.Mark.{Mark};
ghost use Rattle.model_types.specs.Structures.{Structure};
ghost use Rattle.model_types.specs.Types.{Types};
ghost use Rattle.model_core.specs.PossibleTypes.{are_possible};
ghost use Rattle.model_checking.specs.Meanings.{Operand};
ghost use Rattle.model_checking.specs.CallRules.{argument, call, parameters_of, call_fault};
ghost use Rattle.typed_rule_laws.specs.TypedMeanings.{is_typed_meaning, is_typed_operand, is_typed_value};
ghost use Rattle.typed_rule_laws.specs.TypedArguments.{argument_fits, arguments_fit, are_typed_values, exprs_count};
ghost use Rattle.model_core.specs.Core as unit;

/// What an argument becomes is typed, and fits the first of its parameters.
pub fn argument_is_typed()
    ensures { (structs : List Structure) (parameters : Types) (o : Operand) → are_possible structs parameters ≡ true → is_typed_operand structs o.value ≡ true →
        IfOk (argument structs parameters o) (λ e. (is_typed_value structs e && argument_fits parameters e) ≡ true) }
{}

/// A call that breaks nothing, of arguments that are typed and fit the parameters, is typed.
pub fn call_is_typed()
    ensures { (structs : List Structure) (mark : Mark) (at : Place) (function : Operand) (es : unit.Exprs) → is_typed_operand structs function.value ≡ true →
        are_typed_values structs es ≡ true → arguments_fit (parameters_of function) es ≡ true → call_fault structs at function (exprs_count es) ≡ None →
        is_typed_meaning structs (call mark function es) ≡ true }
{}

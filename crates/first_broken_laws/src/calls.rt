//! Laws of calls and measures (ISO/IEC 9899:2024, 6.5.3.3, 6.5.4.5). Each function does nothing, and its contract is the
//! law.
ghost use Rattle.std.specs.Prelude.{ℕ, List};
ghost use Rattle.cake_base.specs.declared.places.Place.{Place};
ghost use Rattle.model_types.specs.declared.marks.Mark.{Mark};
ghost use Rattle.model_types.specs.Structures.{Structure};
ghost use Rattle.model_types.specs.Types.{CType, Types};
ghost use Rattle.model_checking.specs.Meanings.{Meaning, Operand};
ghost use Rattle.model_checking.specs.MadeCore.{meaning_type};
ghost use Rattle.model_checking.specs.CallRules.{call_fault, argument};
ghost use Rattle.model_checking.specs.SizeRules.{size_of_operand, size_of_name, alignment_of_name};
ghost use Rattle.model_constraints.specs.BrokenCalls.{broken_called, broken_argument};
ghost use Rattle.model_constraints.specs.BrokenCasts.{broken_measure};
ghost use Rattle.first_broken_laws.specs.FirstNamed.{Names, Answers, Precedes};

/// What is called, with the number of its arguments.
pub fn call_is_first()
    ensures { (structs : List Structure) (at : Place) (function : Operand) (count : ℕ) → Precedes function.first at →
        Names (broken_called structs at function count) (call_fault structs at function count) }
{}

/// An argument for the first of these parameters, or behind them.
pub fn argument_is_first()
    ensures { (structs : List Structure) (parameters : Types) (o : Operand) → Answers (broken_argument structs parameters o) (argument structs parameters o) }
{}

/// `sizeof` and `alignof`.
pub fn measure_is_first()
    ensures operand { (structs : List Structure) (mark : Mark) (first : Place) (m : Meaning) →
        Answers (broken_measure structs first (meaning_type m)) (size_of_operand structs mark first m) }
    ensures size { (structs : List Structure) (mark : Mark) (first : Place) (type : CType) → Answers (broken_measure structs first type) (size_of_name structs mark first type) }
    ensures alignment { (structs : List Structure) (mark : Mark) (first : Place) (type : CType) →
        Answers (broken_measure structs first type) (alignment_of_name structs mark first type) }
{}

//! Laws of constants, strings and measures (ISO/IEC 9899:2024, 6.4.4, 6.4.5, 6.5.4.5): each function does nothing, and its
//! contract is the law.
ghost use Rattle.std.specs.Prelude.{◌≡◌, true, List, ℕ, ℤ, Bool, ◌<◌, length};
ghost use Rattle.std.specs.Result.{IfOk};
ghost use Rattle.cake_base.specs.declared.places.Place.{Place};
ghost use Rattle.model_types.specs.declared.numbers.Basic.{Basic};
ghost use Rattle.model_types.specs.declared.marks.Mark.{Mark};
ghost use Rattle.model_types.specs.Structures.{Structure};
ghost use Rattle.model_types.specs.Types.{CType};
ghost use Rattle.model_types.specs.Operations.{fits};
ghost use Rattle.model_checking.specs.State.{Use, State};
ghost use Rattle.model_checking.specs.SizeRules.{size_of_name, alignment_of_name};
ghost use Rattle.model_checking.specs.Literals.{number, truth_value, null_pointer, text};
ghost use Rattle.model_types.specs.Layout.{size_limit};
ghost use Rattle.typed_rule_laws.specs.TypedMeanings.{is_typed_meaning, GivesTyped};

/// A constant of a type that has its value is typed.
pub fn constant_is_typed()
    ensures { (structs : List Structure) (value : ℤ) (basic : Basic) (mark : Mark) → fits basic value ≡ true → is_typed_meaning structs (number value basic mark) ≡ true }
{}

/// `true`, `false` and `nullptr` are typed.
pub fn truth_is_typed()
    ensures truth { (structs : List Structure) (value : Bool) (mark : Mark) → is_typed_meaning structs (truth_value value mark) ≡ true }
    ensures null { (structs : List Structure) (mark : Mark) → is_typed_meaning structs (null_pointer mark) ≡ true }
{}

/// A string is typed, where an array can have its length.
pub fn text_is_typed()
    ensures { (structs : List Structure) (usage : Use) (bytes : List ℕ) (mark : Mark) (s : State) → length bytes < size_limit →
        IfOk (text usage bytes mark s) (λ both. is_typed_meaning structs both.made ≡ true) }
{}

/// Sizes and alignments are typed.
pub fn measure_is_typed()
    ensures size { (structs : List Structure) (mark : Mark) (first : Place) (type : CType) → GivesTyped structs (size_of_name structs mark first type) }
    ensures alignment { (structs : List Structure) (mark : Mark) (first : Place) (type : CType) → GivesTyped structs (alignment_of_name structs mark first type) }
{}

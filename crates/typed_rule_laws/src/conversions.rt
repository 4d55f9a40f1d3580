//! Laws of values and of the conversions that operators imply (ISO/IEC 9899:2024, 6.3): each function does nothing,
//! and its contract is the law.
ghost use Rattle.std.specs.Prelude.{◌≡◌, true, false, List, ◌&&◌};
ghost use Rattle.std.specs.Result.{IfOk};
ghost use Rattle.cake_base.specs.declared.places.Place.{Place};
ghost use Rattle.model_types.specs.declared.numbers.BinOp.{BinOp};
ghost use Rattle.model_types.specs.declared.marks.Mark.{Mark};
ghost use Rattle.model_types.specs.Structures.{Structure};
ghost use Rattle.model_types.specs.Types.{CType, form_of_type};
ghost use Rattle.model_types.specs.Conversions.{is_shift};
ghost use Rattle.model_core.specs.CoreTypes.{type_of, is_void};
ghost use Rattle.model_core.specs.SameTypes.{is_integer, is_null_constant, same_value_type};
ghost use Rattle.model_core.specs.TypedParts.{converts, implied_fits, is_promoted};
ghost use Rattle.model_core.specs.TypedExpr.{form_of};
ghost use Rattle.model_core.specs.PossibleTypes.{is_possible};
ghost use Rattle.model_checking.specs.Meanings.{Meaning};
ghost use Rattle.model_checking.specs.MadeCore.{value_of, in_common_type, converted, promoted_value};
ghost use Rattle.model_checking.specs.Conversion.{passed};
ghost use Rattle.typed_rule_laws.specs.TypedMeanings.{is_typed_meaning, is_typed_operand, is_typed_value};
ghost use Rattle.model_core.specs.Core as unit;

/// The value of what an expression is can be an operand.
pub fn value_is_operand()
    ensures { (structs : List Structure) (m : Meaning) → is_typed_meaning structs m ≡ true → is_typed_operand structs (value_of m) ≡ true }
{}

/// An operand that is not void is typed.
pub fn operand_is_typed()
    ensures { (structs : List Structure) (e : unit.Expr) → is_typed_operand structs e ≡ true → is_void (type_of e) ≡ false → is_typed_value structs e ≡ true }
{}

/// A value in a type that an implied conversion may give is typed, and of that type.
pub fn converted_is_typed()
    ensures typed { (structs : List Structure) (type : CType) (e : unit.Expr) → is_typed_value structs e ≡ true → is_possible structs type ≡ true →
        converts (is_null_constant e) (form_of e) (form_of_type type) ≡ true → implied_fits (is_null_constant e) (form_of e) (form_of_type type) ≡ true →
        is_typed_value structs (converted type e) ≡ true }
    ensures of_type { (type : CType) (e : unit.Expr) → converts (is_null_constant e) (form_of e) (form_of_type type) ≡ true → same_value_type type (type_of (converted type e)) ≡ true }
{}

/// A promoted integer is typed, and of a promoted type.
pub fn promoted_is_typed()
    ensures typed { (structs : List Structure) (e : unit.Expr) → is_typed_value structs e ≡ true → is_integer (form_of e) ≡ true → is_typed_value structs (promoted_value e) ≡ true }
    ensures promoted { (e : unit.Expr) → is_promoted (form_of (promoted_value e)) ≡ true }
{}

/// An operation on two integers in their common type is typed.
pub fn common_is_typed()
    ensures { (structs : List Structure) (op : BinOp) (mark : Mark) (a b : unit.Expr) → is_shift op ≡ false → is_typed_value structs a ≡ true →
        is_typed_value structs b ≡ true → is_integer (form_of a) ≡ true → is_integer (form_of b) ≡ true →
        is_typed_value structs (in_common_type op mark a b) ≡ true }
{}

/// What is given to an object of a possible type is typed, and of that type.
pub fn passed_is_typed()
    ensures { (structs : List Structure) (first : Place) (type : CType) (e : unit.Expr) → is_possible structs type ≡ true → is_typed_operand structs e ≡ true →
        IfOk (passed structs first type e) (λ given. (is_typed_value structs given && same_value_type type (type_of given)) ≡ true) }
{}

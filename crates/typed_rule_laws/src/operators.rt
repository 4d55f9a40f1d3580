//! Laws of operators (ISO/IEC 9899:2024, 6.5): where the operands are typed, what the rules make is typed. Each function
//! does nothing, and its contract is the law.
ghost use Rattle.std.specs.Prelude.{◌≡◌, true, List};
ghost use Rattle.std.specs.Result.{IfOk};
ghost use Rattle.cake_base.specs.declared.places.Place.{Place};
ghost use Rattle.model_types.specs.declared.numbers.BinOp.{BinOp};
ghost use Rattle.model_types.specs.declared.operators.LogicOp.{LogicOp};
ghost use Rattle.model_types.specs.declared.operators.StepOp.{StepOp};
ghost use Rattle.model_types.specs.declared.operators.StepSide.{StepSide};
ghost use Rattle.model_types.specs.declared.marks.Mark.{Mark};
ghost use Rattle.model_types.specs.Structures.{Structure};
ghost use Rattle.model_types.specs.Types.{CType};
ghost use Rattle.model_grammar.specs.declared.syntax.PrefixOp.{PrefixOp};
ghost use Rattle.model_grammar.specs.declared.syntax.Name.{Name};
ghost use Rattle.model_core.specs.PossibleTypes.{is_possible, are_structures};
ghost use Rattle.model_checking.specs.Meanings.{Meaning, Operand};
ghost use Rattle.model_checking.specs.State.{Use, State};
ghost use Rattle.model_checking.specs.UnaryRules.{unary, step};
ghost use Rattle.model_checking.specs.BinaryRules.{binary, logic};
ghost use Rattle.model_checking.specs.PointerRules.{index};
ghost use Rattle.model_checking.specs.MemberRules.{member, arrow};
ghost use Rattle.model_checking.specs.AssignRules.{assign, assign_by};
ghost use Rattle.model_checking.specs.CastRules.{cast};
ghost use Rattle.model_checking.specs.ChoiceRules.{comma, choice};
ghost use Rattle.typed_rule_laws.specs.TypedMeanings.{is_typed_meaning, is_typed_operand, GivesTyped};

/// Prefix operators but `++`, `--` and `sizeof`.
pub fn unary_is_typed()
    ensures { (structs : List Structure) (op : PrefixOp) (mark : Mark) (first : Place) (m : Meaning) → is_typed_meaning structs m ≡ true →
        GivesTyped structs (unary structs op mark first m) }
{}

/// `++` and `--`.
pub fn step_is_typed()
    ensures { (structs : List Structure) (op : StepOp) (side : StepSide) (mark : Mark) (first : Place) (m : Meaning) → is_typed_meaning structs m ≡ true →
        GivesTyped structs (step structs op side mark first m) }
{}

/// Binary operators.
pub fn binary_is_typed()
    ensures { (structs : List Structure) (op : BinOp) (mark : Mark) (a b : Operand) → is_typed_operand structs a.value ≡ true → is_typed_operand structs b.value ≡ true →
        GivesTyped structs (binary structs op mark a b) }
{}

/// `&&` and `||`.
pub fn logic_is_typed()
    ensures { (structs : List Structure) (op : LogicOp) (mark : Mark) (a b : Operand) → is_typed_operand structs a.value ≡ true → is_typed_operand structs b.value ≡ true →
        GivesTyped structs (logic structs op mark a b) }
{}

/// `[]`.
pub fn index_is_typed()
    ensures { (structs : List Structure) (mark : Mark) (a b : Operand) → is_typed_operand structs a.value ≡ true → is_typed_operand structs b.value ≡ true →
        GivesTyped structs (index structs mark a b) }
{}

/// `.`, where the structures fit.
pub fn member_is_typed()
    ensures { (usage : Use) (m : Meaning) (name : Name) (mark : Mark) (s : State) → are_structures s.scopes.structs ≡ true →
        is_typed_meaning s.scopes.structs m ≡ true → IfOk (member usage m name mark s) (λ both. is_typed_meaning s.scopes.structs both.made ≡ true) }
{}

/// `->`, where the structures fit.
pub fn arrow_is_typed()
    ensures { (structs : List Structure) (o : Operand) (name : Name) (mark : Mark) → are_structures structs ≡ true → is_typed_operand structs o.value ≡ true →
        GivesTyped structs (arrow structs o name mark) }
{}

/// Casts to a possible type.
pub fn cast_is_typed()
    ensures { (structs : List Structure) (mark : Mark) (type : CType) (o : Operand) → is_possible structs type ≡ true → is_typed_operand structs o.value ≡ true →
        GivesTyped structs (cast structs mark type o) }
{}

/// `=`.
pub fn assign_is_typed()
    ensures { (structs : List Structure) (mark : Mark) (left : Meaning) (right : Operand) → is_typed_meaning structs left ≡ true → is_typed_operand structs right.value ≡ true →
        GivesTyped structs (assign structs mark left right) }
{}

/// `op=`.
pub fn assign_by_is_typed()
    ensures { (structs : List Structure) (op : BinOp) (mark : Mark) (first : Place) (left : Meaning) (right : Operand) → is_typed_meaning structs left ≡ true →
        is_typed_operand structs right.value ≡ true → GivesTyped structs (assign_by structs op mark first left right) }
{}

/// `?:`.
pub fn choice_is_typed()
    ensures { (structs : List Structure) (mark : Mark) (c a b : Operand) → is_typed_operand structs c.value ≡ true → is_typed_operand structs a.value ≡ true →
        is_typed_operand structs b.value ≡ true → GivesTyped structs (choice structs mark c a b) }
{}

/// The comma.
pub fn comma_is_typed()
    ensures { (structs : List Structure) (mark : Mark) (a b : Operand) → is_typed_operand structs a.value ≡ true → is_typed_operand structs b.value ≡ true →
        GivesTyped structs (comma structs mark a b) }
{}

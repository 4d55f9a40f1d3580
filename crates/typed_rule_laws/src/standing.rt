//! Laws of what is named (ISO/IEC 9899:2024, 6.2.1, 6.5): where the operands stand in a unit and its scopes, what the rules
//! make stands there. Each function does nothing, and its contract is the law.
ghost use Rattle.std.specs.Prelude.{◌≡◌, true, List, None, ℕ, ℤ, ◌<◌, length};
ghost use Rattle.std.specs.Result.{IfOk};
ghost use Rattle.cake_base.specs.declared.places.Place.{Place};
ghost use Rattle.model_types.specs.declared.numbers.Basic.{Basic};
ghost use Rattle.model_types.specs.declared.numbers.BinOp.{BinOp};
ghost use Rattle.model_types.specs.declared.operators.LogicOp.{LogicOp};
ghost use Rattle.model_types.specs.declared.operators.StepOp.{StepOp};
ghost use Rattle.model_types.specs.declared.operators.StepSide.{StepSide};
ghost use Rattle.model_types.specs.declared.marks.Mark.{Mark};
ghost use Rattle.model_types.specs.Types.{CType, Types};
ghost use Rattle.model_grammar.specs.declared.syntax.PrefixOp.{PrefixOp};
ghost use Rattle.model_grammar.specs.declared.syntax.Name.{Name};
ghost use Rattle.model_core.specs.PossibleTypes.{is_possible, are_possible};
ghost use Rattle.model_checking.specs.Meanings.{Meaning, Operand};
ghost use Rattle.model_checking.specs.State.{Use, State};
ghost use Rattle.model_checking.specs.MadeCore.{value_of, converted};
ghost use Rattle.model_checking.specs.UnaryRules.{unary, step};
ghost use Rattle.model_checking.specs.BinaryRules.{binary, logic};
ghost use Rattle.model_checking.specs.PointerRules.{index};
ghost use Rattle.model_checking.specs.MemberRules.{member, arrow};
ghost use Rattle.model_checking.specs.Conversion.{passed};
ghost use Rattle.model_checking.specs.CallRules.{argument, call, call_fault};
ghost use Rattle.model_checking.specs.AssignRules.{assign, assign_by};
ghost use Rattle.model_checking.specs.CastRules.{cast};
ghost use Rattle.model_checking.specs.ChoiceRules.{comma, choice};
ghost use Rattle.model_checking.specs.SizeRules.{measured};
ghost use Rattle.model_checking.specs.Literals.{number, text, text_type};
ghost use Rattle.model_types.specs.Layout.{size_limit};
ghost use Rattle.typed_rule_laws.specs.TypedMeanings.{is_typed_meaning, is_typed_operand};
ghost use Rattle.typed_rule_laws.specs.TypedArguments.{exprs_count};
ghost use Rattle.typed_rule_laws.specs.StandingMeanings.{meaning_stands, operand_stands, is_noted, GivesStanding, is_kept};
ghost use Rattle.model_core.specs.TypedScope.{Scope, expr_stands, exprs_stand, object_is};
ghost use Rattle.model_core.specs.Core as unit;

/// The value of what stands can be an operand.
pub fn value_stands()
    ensures { (s : Scope) (m : Meaning) → is_typed_meaning s.core.structs m ≡ true → meaning_stands s m ≡ true → operand_stands s (value_of m) ≡ true }
{}

/// A value in a possible type stands.
pub fn converted_stands()
    ensures { (s : Scope) (type : CType) (e : unit.Expr) → is_possible s.core.structs type ≡ true → expr_stands s e ≡ true → expr_stands s (converted type e) ≡ true }
{}

/// Prefix operators but `++`, `--` and `sizeof`.
pub fn unary_stands()
    ensures { (s : Scope) (op : PrefixOp) (mark : Mark) (first : Place) (m : Meaning) → is_typed_meaning s.core.structs m ≡ true →
        meaning_stands s m ≡ true → is_noted s op m ≡ true → GivesStanding s (unary s.core.structs op mark first m) }
{}

/// `++` and `--`.
pub fn step_stands()
    ensures { (s : Scope) (op : StepOp) (side : StepSide) (mark : Mark) (first : Place) (m : Meaning) → meaning_stands s m ≡ true →
        GivesStanding s (step s.core.structs op side mark first m) }
{}

/// Binary operators.
pub fn binary_stands()
    ensures { (s : Scope) (op : BinOp) (mark : Mark) (a b : Operand) → is_typed_operand s.core.structs a.value ≡ true →
        is_typed_operand s.core.structs b.value ≡ true → operand_stands s a.value ≡ true → operand_stands s b.value ≡ true →
        GivesStanding s (binary s.core.structs op mark a b) }
{}

/// `&&` and `||`.
pub fn logic_stands()
    ensures { (s : Scope) (op : LogicOp) (mark : Mark) (a b : Operand) → operand_stands s a.value ≡ true → operand_stands s b.value ≡ true →
        GivesStanding s (logic s.core.structs op mark a b) }
{}

/// `[]`.
pub fn index_stands()
    ensures { (s : Scope) (mark : Mark) (a b : Operand) → operand_stands s a.value ≡ true → operand_stands s b.value ≡ true →
        GivesStanding s (index s.core.structs mark a b) }
{}

/// `.`; where it asks for an array in the value of a structure, once the object that holds that value is there.
pub fn member_stands()
    ensures { (s : Scope) (usage : Use) (m : Meaning) (name : Name) (mark : Mark) (state : State) → state.scopes.structs ≡ s.core.structs →
        is_typed_meaning s.core.structs m ≡ true → meaning_stands s m ≡ true →
        IfOk (member usage m name mark state) (λ both. is_kept s both.made ≡ true → meaning_stands s both.made ≡ true) }
{}

/// `->`.
pub fn arrow_stands()
    ensures { (s : Scope) (o : Operand) (name : Name) (mark : Mark) → operand_stands s o.value ≡ true → GivesStanding s (arrow s.core.structs o name mark) }
{}

/// Casts to a possible type.
pub fn cast_stands()
    ensures { (s : Scope) (mark : Mark) (type : CType) (o : Operand) → is_possible s.core.structs type ≡ true → operand_stands s o.value ≡ true →
        GivesStanding s (cast s.core.structs mark type o) }
{}

/// The comma.
pub fn comma_stands()
    ensures { (s : Scope) (mark : Mark) (a b : Operand) → operand_stands s a.value ≡ true → operand_stands s b.value ≡ true →
        GivesStanding s (comma s.core.structs mark a b) }
{}

/// `?:`.
pub fn choice_stands()
    ensures { (s : Scope) (mark : Mark) (c a b : Operand) → is_typed_operand s.core.structs a.value ≡ true → is_typed_operand s.core.structs b.value ≡ true →
        operand_stands s c.value ≡ true → operand_stands s a.value ≡ true → operand_stands s b.value ≡ true →
        GivesStanding s (choice s.core.structs mark c a b) }
{}

/// What is given to an object of a possible type, and what becomes of an argument.
pub fn passed_stands()
    ensures given { (s : Scope) (first : Place) (type : CType) (e : unit.Expr) → is_possible s.core.structs type ≡ true → operand_stands s e ≡ true →
        IfOk (passed s.core.structs first type e) (λ given. expr_stands s given ≡ true) }
    ensures argument { (s : Scope) (parameters : Types) (o : Operand) → are_possible s.core.structs parameters ≡ true → operand_stands s o.value ≡ true →
        IfOk (argument s.core.structs parameters o) (λ e. expr_stands s e ≡ true) }
{}

/// A call that breaks nothing.
pub fn call_stands()
    ensures { (s : Scope) (mark : Mark) (at : Place) (function : Operand) (es : unit.Exprs) → operand_stands s function.value ≡ true →
        exprs_stand s es ≡ true → call_fault s.core.structs at function (exprs_count es) ≡ None → meaning_stands s (call mark function es) ≡ true }
{}

/// `=`.
pub fn assign_stands()
    ensures { (s : Scope) (mark : Mark) (left : Meaning) (right : Operand) → is_typed_meaning s.core.structs left ≡ true → meaning_stands s left ≡ true →
        operand_stands s right.value ≡ true → GivesStanding s (assign s.core.structs mark left right) }
{}

/// `op=`.
pub fn assign_by_stands()
    ensures { (s : Scope) (op : BinOp) (mark : Mark) (first : Place) (left : Meaning) (right : Operand) → meaning_stands s left ≡ true →
        operand_stands s right.value ≡ true → GivesStanding s (assign_by s.core.structs op mark first left right) }
{}

/// Constants, measures, and a string whose object is there.
pub fn constants_stand()
    ensures constant { (s : Scope) (value : ℤ) (basic : Basic) (mark : Mark) → meaning_stands s (number value basic mark) ≡ true }
    ensures measure { (s : Scope) (mark : Mark) (first : Place) (type : CType) (measure : ℕ) → GivesStanding s (measured s.core.structs mark first type measure) }
    ensures string { (s : Scope) (usage : Use) (bytes : List ℕ) (mark : Mark) (state : State) → length bytes < size_limit →
        object_is s state.scopes.ids (text_type bytes) (unit.object_of s.core.objects state.scopes.ids) ≡ true →
        IfOk (text usage bytes mark state) (λ both. meaning_stands s both.made ≡ true) }
{}

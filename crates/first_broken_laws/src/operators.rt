//! Laws of operators (ISO/IEC 9899:2024, 6.5.3 to 6.5.18): where the operands are known, and stand in the order of the
//! source. Each function does nothing, and its contract is the law.
ghost use Rattle.std.specs.Prelude.{◌≡◌, List, None};
ghost use Rattle.cake_base.specs.declared.places.Place.{Place};
ghost use Rattle.model_types.specs.declared.numbers.BinOp.{BinOp};
ghost use Rattle.model_types.specs.declared.operators.LogicOp.{LogicOp};
ghost use Rattle.model_types.specs.declared.operators.StepOp.{StepOp};
ghost use Rattle.model_types.specs.declared.operators.StepSide.{StepSide};
ghost use Rattle.model_types.specs.declared.operators.StepSide.TheVariants.{Prefix, Postfix};
ghost use Rattle.model_types.specs.declared.marks.Mark.{Mark};
ghost use Rattle.model_types.specs.Structures.{Structure};
ghost use Rattle.model_grammar.specs.declared.syntax.Name.{Name};
ghost use Rattle.model_grammar.specs.declared.syntax.PrefixOp.{PrefixOp};
ghost use Rattle.model_checking.specs.State.{Use, State};
ghost use Rattle.model_checking.specs.Meanings.{Meaning, Operand};
ghost use Rattle.model_checking.specs.MadeCore.{used_fault};
ghost use Rattle.model_checking.specs.UnaryRules.{unary, step};
ghost use Rattle.model_checking.specs.BinaryRules.{binary, logic};
ghost use Rattle.model_checking.specs.PointerRules.{index};
ghost use Rattle.model_checking.specs.ChoiceRules.{condition_fault, choice, comma};
ghost use Rattle.model_checking.specs.MemberRules.{member, arrow};
ghost use Rattle.model_constraints.specs.Pairs.{Beside};
ghost use Rattle.model_constraints.specs.BrokenValues.{broken_use, broken_reading};
ghost use Rattle.model_constraints.specs.BrokenOperators.{broken_unary, broken_step, broken_binary, broken_logic};
ghost use Rattle.model_constraints.specs.BrokenPointers.{broken_element};
ghost use Rattle.model_constraints.specs.BrokenChoices.{broken_chosen_by, broken_branches};
ghost use Rattle.model_constraints.specs.BrokenMembers.{broken_member, broken_arrow};
ghost use Rattle.first_broken_laws.specs.FirstNamed.{Names, Answers, Precedes, Designates};

/// A value that is used.
pub fn use_is_first()
    ensures { (structs : List Structure) (o : Operand) → Names (broken_use structs o) (used_fault structs o) }
{}

/// Prefix operators but `++`, `--` and `sizeof`.
pub fn unary_is_first()
    ensures { (structs : List Structure) (op : PrefixOp) (mark : Mark) (first : Place) (m : Meaning) → Precedes mark.at first → Designates m →
        Answers (broken_unary structs op mark.at first m) (unary structs op mark first m) }
{}

/// `++` and `--`.
pub fn step_is_first()
    ensures { (structs : List Structure) (op : StepOp) (side : StepSide) (mark : Mark) (first : Place) (m : Meaning) →
        (side ≡ Prefix → Precedes mark.at first) → (side ≡ Postfix → Precedes first mark.at) →
        Answers (broken_step structs mark.at first m) (step structs op side mark first m) }
{}

/// Binary operators.
pub fn binary_is_first()
    ensures { (structs : List Structure) (op : BinOp) (mark : Mark) (a b : Operand) → Precedes a.first mark.at → Precedes mark.at b.first →
        Answers (Beside (broken_use structs a) (broken_binary structs op mark.at a b)) (binary structs op mark a b) }
{}

/// `&&` and `||`.
pub fn logic_is_first()
    ensures { (structs : List Structure) (op : LogicOp) (mark : Mark) (a b : Operand) → Precedes a.first mark.at → Precedes mark.at b.first →
        Answers (Beside (broken_use structs a) (broken_logic structs mark.at a b)) (logic structs op mark a b) }
{}

/// `[]`.
pub fn index_is_first()
    ensures { (structs : List Structure) (mark : Mark) (a b : Operand) → Precedes a.first mark.at → Precedes mark.at b.first →
        Answers (Beside (broken_use structs a) (broken_element structs mark.at a b)) (index structs mark a b) }
{}

/// The condition of `?:`.
pub fn condition_is_first()
    ensures { (structs : List Structure) (at : Place) (c : Operand) → Precedes c.first at → Names (broken_chosen_by structs at c) (condition_fault structs at c) }
{}

/// `?:`, whose condition breaks nothing.
pub fn choice_is_first()
    ensures { (structs : List Structure) (mark : Mark) (c a b : Operand) → condition_fault structs mark.at c ≡ None → Precedes mark.at a.first →
        Precedes a.first b.first → Answers (Beside (broken_reading structs a) (broken_branches structs mark.at a b)) (choice structs mark c a b) }
{}

/// The comma.
pub fn comma_is_first()
    ensures { (structs : List Structure) (mark : Mark) (a b : Operand) → Precedes a.first b.first →
        Answers (Beside (broken_reading structs a) (broken_reading structs b)) (comma structs mark a b) }
{}

/// `.`.
pub fn member_is_first()
    ensures { (usage : Use) (m : Meaning) (name : Name) (mark : Mark) (s : State) → Designates m →
        Answers (broken_member s.scopes.structs mark.at m name) (member usage m name mark s) }
{}

/// `->`.
pub fn arrow_is_first()
    ensures { (structs : List Structure) (pointer : Operand) (name : Name) (mark : Mark) →
        Answers (broken_arrow structs pointer name) (arrow structs pointer name mark) }
{}

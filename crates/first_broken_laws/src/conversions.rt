//! Laws of what is given to an object (ISO/IEC 9899:2024, 6.5.3.3, 6.5.5, 6.5.17, 6.7.11, 6.8.7.5). Each function does
//! nothing, and its contract is the law.
ghost use Rattle.std.specs.Prelude.{List};
ghost use Rattle.cake_base.specs.declared.places.Place.{Place};
ghost use Rattle.model_types.specs.declared.numbers.BinOp.{BinOp};
ghost use Rattle.model_types.specs.declared.marks.Mark.{Mark};
ghost use Rattle.model_types.specs.Structures.{Structure};
ghost use Rattle.model_types.specs.Types.{CType};
ghost use Rattle.model_checking.specs.Meanings.{Meaning, Operand};
ghost use Rattle.model_checking.specs.MadeCore.{operand};
ghost use Rattle.model_checking.specs.Conversion.{passed};
ghost use Rattle.model_checking.specs.AssignRules.{assign, assign_by};
ghost use Rattle.model_checking.specs.CastRules.{cast};
ghost use Rattle.model_constraints.specs.Pairs.{Beside};
ghost use Rattle.model_constraints.specs.BrokenValues.{broken_giving};
ghost use Rattle.model_constraints.specs.BrokenAssignments.{broken_left_side, broken_assigned, broken_assigned_by};
ghost use Rattle.model_constraints.specs.BrokenCasts.{broken_cast};
ghost use Rattle.first_broken_laws.specs.FirstNamed.{Answers, Precedes};

/// A value that is given to an object of a type.
pub fn giving_is_first()
    ensures { (structs : List Structure) (to : CType) (o : Operand) → Answers (broken_giving structs to o) (passed structs o.first to o.value) }
{}

/// `=`.
pub fn assign_is_first()
    ensures { (structs : List Structure) (mark : Mark) (left : Meaning) (right : Operand) → Precedes mark.at right.first →
        Answers (Beside (broken_left_side structs mark.at left) (broken_assigned structs left right)) (assign structs mark left right) }
{}

/// `op=`.
pub fn assign_by_is_first()
    ensures { (structs : List Structure) (op : BinOp) (mark : Mark) (first : Place) (left : Meaning) (right : Operand) → Precedes first mark.at →
        Precedes mark.at right.first →
        Answers (Beside (broken_left_side structs mark.at left) (broken_assigned_by structs op mark.at (operand first left) right)) (assign_by structs op mark first left right) }
{}

/// A cast.
pub fn cast_is_first()
    ensures { (structs : List Structure) (mark : Mark) (to : CType) (o : Operand) → Precedes mark.at o.first →
        Answers (broken_cast structs mark.at to o) (cast structs mark to o) }
{}

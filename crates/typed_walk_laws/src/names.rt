//! Laws of names and of members in expressions (ISO/IEC 9899:2024, 6.5.2, 6.5.3.4): each function does nothing, and its contract is the law.
ghost use Rattle.std.specs.Prelude.{◌≡◌, true, List};
ghost use Rattle.model_types.specs.declared.marks.Mark.{Mark};
ghost use Rattle.model_grammar.specs.declared.syntax.Name.{Name};
ghost use Rattle.model_checking.specs.State.{Use, State};
ghost use Rattle.model_checking.specs.Meanings.{Meaning};
ghost use Rattle.model_checking.specs.NamedObjects.{named};
ghost use Rattle.model_checking.specs.MemberRules.{member};
ghost use Rattle.typed_rule_laws.specs.TypedMeanings.{is_typed_meaning};
ghost use Rattle.typed_walk_laws.specs.SoundScopes.{are_sound};
ghost use Rattle.typed_walk_laws.specs.Behind.{GivesSound};

/// A name where what is declared is sound.
pub fn name_is_typed()
    ensures { (usage : Use) (name : Name) (mark : Mark) (s : State) → are_sound s.scopes ≡ true →
        GivesSound s (λ structs m. is_typed_meaning structs m ≡ true) (named usage name mark s) }
{}

/// `.`, with the state behind it.
pub fn member_is_sound()
    ensures { (usage : Use) (m : Meaning) (name : Name) (mark : Mark) (s : State) → are_sound s.scopes ≡ true →
        is_typed_meaning s.scopes.structs m ≡ true → GivesSound s (λ structs m. is_typed_meaning structs m ≡ true) (member usage m name mark s) }
{}

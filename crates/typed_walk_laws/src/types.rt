//! Laws of the types that tags and typedef names give (ISO/IEC 9899:2024, 6.7.3.2, 6.7.3.3, 6.7.9): each function does nothing, and its contract is the law.
ghost use Rattle.std.specs.Prelude.{◌≡◌, true, Bool, List};
ghost use Rattle.cake_base.specs.declared.places.Place.{Place};
ghost use Rattle.model_grammar.specs.declared.syntax.Name.{Name};
ghost use Rattle.model_core.specs.PossibleTypes.{is_possible};
ghost use Rattle.model_checking.specs.State.{State};
ghost use Rattle.model_checking.specs.Structures.{struct_tag};
ghost use Rattle.model_checking.specs.SpecifierTypes.{typedef_type};
ghost use Rattle.typed_walk_laws.specs.SoundScopes.{are_sound};
ghost use Rattle.typed_walk_laws.specs.Behind.{GivesSound};

/// `struct` and a tag without braces, which may declare it.
pub fn tags_are_possible()
    ensures { (is_lone : Bool) (name : Name) (place : Place) (s : State) → are_sound s.scopes ≡ true →
        GivesSound s (λ structs type. is_possible structs type ≡ true) (struct_tag is_lone name place s) }
{}

/// A typedef name.
pub fn typedef_is_possible()
    ensures { (name : Name) (s : State) → are_sound s.scopes ≡ true → GivesSound s (λ structs type. is_possible structs type ≡ true) (typedef_type name s) }
{}

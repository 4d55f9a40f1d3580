//! Laws of specifiers, declarators and type names (ISO/IEC 9899:2024, 6.7.3, 6.7.7, 6.7.8): each function does nothing, and its contract
//! is the law.
ghost use Rattle.std.specs.Prelude.{◌≡◌, true, Bool, List, Option, None};
ghost use Rattle.std.specs.Option.{unwrap_or};
ghost use Rattle.cake_base.specs.declared.places.Place.{Place};
ghost use Rattle.model_grammar.specs.SyntaxForms as syntax;
ghost use Rattle.model_core.specs.CoreTypes.{int_type};
ghost use Rattle.model_core.specs.PossibleTypes.{is_possible};
ghost use Rattle.model_checking.specs.Parts.{Specified};
ghost use Rattle.model_checking.specs.State.{Use, State};
ghost use Rattle.model_checking.specs.DeclaratorTypes.{declarator};
ghost use Rattle.model_checking.specs.Reading.{declared_type};
ghost use Rattle.model_checking.specs.Elaborated.{types_in, derivations, type_name};
ghost use Rattle.typed_walk_laws.specs.SoundScopes.{are_sound};
ghost use Rattle.typed_walk_laws.specs.Behind.{SoundBoth, GivesSound};
ghost use Rattle.typed_expression_laws.specs.CoveredTrees.{are_covered_specs, is_covered_declarator, is_covered_name};

/// The type that a structure, an enumeration, a tag, a typedef name or `typeof` among specifiers gives is possible; and so is `int`, where
/// there is none.
pub fn specified_type_is_possible()
    ensures { (u : Use) (is_lone : Bool) (s : State) (specs : syntax.Specs) → are_covered_specs specs ≡ true → are_sound s.scopes ≡ true →
        GivesSound s (λ structs type. is_possible structs (unwrap_or type int_type) ≡ true) (types_in u is_lone s specs) }
{}

/// What a declarator derives from a possible type is possible, where the declarator breaks nothing.
pub fn derived_type_is_possible()
    ensures { (u : Use) (given : Specified) (first : Place) (d : syntax.Declarator) (s : State) → is_covered_declarator d ≡ true → are_sound s.scopes ≡ true →
        is_possible s.scopes.structs (unwrap_or given.type int_type) ≡ true →
        SoundBoth s (λ structs d. d.fault ≡ None → is_possible structs (declared_type d) ≡ true) (declarator given first d s (derivations u s d)) }
{}

/// The type that a type name gives is possible, where the name breaks nothing.
pub fn named_type_is_possible()
    ensures { (u : Use) (s : State) (name : syntax.TypeName) → is_covered_name name ≡ true → are_sound s.scopes ≡ true →
        GivesSound s (λ structs d. d.fault ≡ None → is_possible structs (declared_type d) ≡ true) (type_name u s name) }
{}

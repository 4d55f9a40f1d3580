//! Laws of whole expressions (ISO/IEC 9899:2024, 6.5): each function does nothing, and its contract is the law.
ghost use Rattle.std.specs.Prelude.{◌≡◌, true, List, Option, ℤ};
ghost use Rattle.model_types.specs.Types.{Types};
ghost use Rattle.model_grammar.specs.SyntaxForms as syntax;
ghost use Rattle.model_core.specs.PossibleTypes.{are_possible};
ghost use Rattle.model_checking.specs.State.{Use, State};
ghost use Rattle.model_checking.specs.Reading.{count_of};
ghost use Rattle.model_checking.specs.Elaborated.{expr, arguments_for};
ghost use Rattle.typed_rule_laws.specs.TypedMeanings.{is_typed_meaning};
ghost use Rattle.typed_rule_laws.specs.TypedArguments.{are_typed_values, arguments_fit, exprs_count};
ghost use Rattle.typed_walk_laws.specs.SoundScopes.{are_sound};
ghost use Rattle.typed_walk_laws.specs.Behind.{GivesSound};
ghost use Rattle.typed_expression_laws.specs.CoveredTrees.{is_covered, are_covered};

/// An expression is typed, and what is declared behind it is sound.
pub fn expression_is_typed()
    ensures { (u : Use) (s : State) (e : syntax.Expr) → is_covered e ≡ true → are_sound s.scopes ≡ true →
        GivesSound s (λ structs m. is_typed_meaning structs m ≡ true) (expr u s e) }
{}

/// The arguments for possible parameters are typed; each is of the type of its parameter, or promoted behind the parameters; and they are
/// as many as are written (6.5.3.3).
pub fn arguments_are_typed()
    ensures typed { (u : Use) (parameters : Types) (s : State) (es : syntax.Exprs) → are_covered es ≡ true → are_sound s.scopes ≡ true →
        are_possible s.scopes.structs parameters ≡ true →
        GivesSound s (λ structs made. are_typed_values structs made ≡ true) (arguments_for u parameters s es) }
    ensures fit { (u : Use) (parameters : Types) (s : State) (es : syntax.Exprs) → are_covered es ≡ true → are_sound s.scopes ≡ true →
        are_possible s.scopes.structs parameters ≡ true →
        GivesSound s (λ structs made. arguments_fit parameters made ≡ true) (arguments_for u parameters s es) }
    ensures count { (u : Use) (parameters : Types) (s : State) (es : syntax.Exprs) → are_covered es ≡ true → are_sound s.scopes ≡ true →
        are_possible s.scopes.structs parameters ≡ true →
        GivesSound s (λ structs made. exprs_count made ≡ count_of es) (arguments_for u parameters s es) }
{}

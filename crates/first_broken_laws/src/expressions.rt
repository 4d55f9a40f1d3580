//! Laws of whole expressions (ISO/IEC 9899:2024, 6.5). Each function does nothing, and its contract is the law.
ghost use Rattle.std.specs.Prelude.{◌≡◌, true};
ghost use Rattle.model_grammar.specs.SyntaxForms as syntax;
ghost use Rattle.model_checking.specs.State.{Use, State};
ghost use Rattle.model_checking.specs.Elaborated.{expr};
ghost use Rattle.model_constraints.specs.BrokenParts.{broken_expr};
ghost use Rattle.typed_walk_laws.specs.SoundScopes.{are_sound};
ghost use Rattle.typed_expression_laws.specs.CoveredTrees.{is_covered};
ghost use Rattle.first_broken_laws.specs.FirstNamed.{Answers};
ghost use Rattle.first_broken_laws.specs.OrderedTrees.{is_in_order};

/// An expression whose tokens stand in order, where what is declared is sound.
pub fn expression_is_first()
    ensures { (u : Use) (s : State) (e : syntax.Expr) → is_covered e ≡ true → is_in_order e ≡ true → are_sound s.scopes ≡ true →
        Answers (broken_expr u s e) (expr u s e) }
{}

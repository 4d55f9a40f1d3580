//! Laws of what the grammar's trees stand for.
ghost use Rattle.std.specs.Prelude.{List, [], ◌∷◌, IsSome};
ghost use Rattle.model_grammar.specs.declared.grammar.Rule.{Rule};
ghost use Rattle.model_grammar.specs.declared.grammar.Rule.TheVariants as r;
ghost use Rattle.model_grammar.specs.declared.grammar.Terminal.{Terminal};
ghost use Rattle.model_grammar.specs.declared.grammar.Tree.{Tree};
ghost use Rattle.model_tokens.specs.declared.tokens.CTok.{CTok};
ghost use Rattle.model_grammar.specs.Derivation.{Derives};
ghost use Rattle.model_grammar.specs.GrammarForm.{rule};
ghost use Rattle.model_grammar.specs.NameScopes.{Scopes, start};
ghost use Rattle.model_grammar.specs.SyntaxActions.{value_of, tree_of};
ghost use Rattle.model_grammar.specs.SyntaxTree.{c_language};
ghost use Rattle.model_grammar.specs.TerminalsOf.{terminals_of};
ghost use Rattle.c_tree.specs.SyntaxSorts.{AreTokens, Sorted, sort_of};

/// Each tree that the grammar derives from tokens of a list stands for a form of the sort of its nonterminal: an
/// expression for an expression, a statement for a statement, and so on.
pub fn derived_trees_are_forms()
    ensures { (tokens : List CTok) (x : Rule) (s new : Scopes) (ts rest : List Terminal) (t : Tree) → AreTokens tokens ts → Derives c_language (rule x) s ts (t ∷ []) new rest → Sorted (sort_of x) (value_of tokens t).meaning }
{}

/// The tree that the grammar derives from a whole list of tokens stands for a unit.
pub fn derived_units_are_units()
    ensures { (tokens : List CTok) (new : Scopes) (t : Tree) → Derives c_language (rule r.Unit) start (terminals_of tokens) (t ∷ []) new [] → IsSome (tree_of tokens t) }
{}

//! A worked unit of the grammar, whose tree by its forms the checker computes.
ghost use Rattle.std.specs.Prelude.{◌≡◌, Some};
ghost use Rattle.model_grammar.specs.SyntaxActions.{tree_of};
ghost use Rattle.grammar_laws.specs.SyntaxExamples.{tokens, whole_tree, whole_unit};

/// The tree of the grammar of `int f(int a) { return a + 1; }` stands for this function.
pub fn function_of_a_sum()
    ensures { tree_of tokens whole_tree ≡ Some whole_unit }
{}

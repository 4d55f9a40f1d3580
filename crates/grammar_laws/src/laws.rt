//! The laws of the grammar: each is the contract of a function that does nothing.
ghost use Rattle.std.specs.Prelude.{◌≡◌, ◌<◌, ℕ, Bool, true, List, [], length};
ghost use Rattle.model_grammar.specs.declared.grammar.Rule.{Rule};
ghost use Rattle.model_grammar.specs.declared.grammar.Rule.TheVariants as r;
ghost use Rattle.model_grammar.specs.declared.grammar.Terminal.{Terminal};
ghost use Rattle.model_grammar.specs.declared.grammar.Test.{Test};
ghost use Rattle.model_grammar.specs.declared.grammar.Tree.{Tree};
ghost use Rattle.grammar_laws.specs.apparatus.DecidedTable.{table_decided};
ghost use Rattle.grammar_laws.specs.DepthPlace.{marks};
ghost use Rattle.model_grammar.specs.Derivation.{Derives, Begins};
ghost use Rattle.model_grammar.specs.GrammarForm.{Form, rule};
ghost use Rattle.model_grammar.specs.NameScopes.{Scopes, start};
ghost use Rattle.model_grammar.specs.SyntaxTree.{c_language};
ghost use Rattle.model_grammar.specs.Grammar.{grammar};
ghost use Rattle.grammar_laws.specs.OneAnswer.{ExcludeEachOther, HasAnswer};
ghost use Rattle.grammar_laws.specs.UnitSyntax.{IsTooDeep, HasParts};
ghost use Rattle.grammar_laws.specs.apparatus.Untested.{untested};
ghost use Rattle.grammar_laws.specs.ParserSets.{tables};
ghost use Rattle.grammar_laws.specs.ParserTable.{table};
ghost use Rattle.grammar_laws.specs.ParserTests.{parsed};
ghost use Rattle.grammar_laws.specs.apparatus.QuietEnds.{IsQuiet};
ghost use Rattle.grammar_laws.specs.Preferences.{IsPreferred};

/// One token, or a test, decides each choice of the parser's table.
#[tactic(auto, using(crate::proofs::walks::ParserDecided::checked))]
pub fn table_is_decided()
    ensures { (rule : Rule) → table_decided tables rule (table rule) ≡ true }
{}

/// The end of a nonterminal changes the kind of no token that decides whether it has ended.
#[tactic(auto, using(crate::proofs::walks::ParserDecided::quiet))]
pub fn ends_are_quiet()
    ensures { IsQuiet tables parsed }
{}

/// What the parser's table derives, with its tests of the tokens ahead, the grammar derives, as the same trees.
#[tactic(auto, using(crate::proofs::same_language::TestsAddNothing::grammar_derives_unit))]
pub fn parsed_is_derived()
    ensures { (ts : List Terminal) (xs : List Tree) (new : Scopes) (rest : List Terminal) → Derives parsed (rule r.Unit) start ts xs new rest → Derives c_language (rule r.Unit) start ts xs new rest }
{}

/// What the parser's table begins, the grammar begins.
#[tactic(auto, using(crate::proofs::same_language::TestsAddNothing::grammar_begins_unit))]
pub fn parsed_front_is_begun()
    ensures { (ts rest : List Terminal) → Begins parsed (rule r.Unit) start ts rest → Begins c_language (rule r.Unit) start ts rest }
{}

/// The parser's table without its tests of the tokens ahead is the grammar.
#[tactic(auto, using(crate::proofs::same_language::TestsAddNothing::same_table))]
pub fn untested_table_is_grammar()
    ensures { (rule : Rule) → untested (table rule) ≡ grammar rule }
{}

/// The parser's tests of the tokens ahead lose no unit: what the grammar derives of a unit, the parser's table derives.
#[tactic(auto, using(crate::proofs::same_language::WholeUnits::whole))]
pub fn tests_lose_no_unit()
    ensures { (ts : List Terminal) (xs : List Tree) (new : Scopes) → Derives c_language (rule r.Unit) start ts xs new [] → (ys : List Tree) × Derives parsed (rule r.Unit) start ts ys new [] }
{}

/// Nor do they lose a front of a unit.
#[tactic(auto, using(crate::proofs::same_language::WholeUnits::front))]
pub fn tests_lose_no_front()
    ensures { (ts rest : List Terminal) → Begins c_language (rule r.Unit) start ts rest → Begins parsed (rule r.Unit) start ts rest }
{}

/// At most one tree is preferred, by the grammar and by any other table and tests.
#[tactic(auto, using(crate::proofs::preferred_tree::ChoiceOrder::one_preferred_tree))]
pub fn one_preferred()
    ensures { (body : Rule → Form) (test : Test → Scopes → List Terminal → Bool) (form : Form) (s : Scopes) (ts : List Terminal) (xs ys : List Tree) → IsPreferred (record c_language { body = body; test = test }) form s ts xs → IsPreferred (record c_language { body = body; test = test }) form s ts ys → xs ≡ ys }
{}

/// The parser's tree is the preferred one: no other derivation by the grammar takes an optional part, or the alternative
/// that is written first, where the parser's left it out and all choices before were the same.
#[tactic(auto, using(crate::proofs::preferred_tree::PreferredUnits::preferred))]
pub fn parsed_is_preferred()
    ensures { (ts : List Terminal) (xs : List Tree) (new : Scopes) → Derives parsed (rule r.Unit) start ts xs new [] → IsPreferred c_language (rule r.Unit) start ts xs }
{}

/// So the parser's table derives one tree of a unit at most.
#[tactic(auto, using(crate::proofs::preferred_tree::PreferredUnits::one_tree))]
pub fn parsed_has_one_tree()
    ensures { (ts : List Terminal) (xs ys : List Tree) (new other : Scopes) → Derives parsed (rule r.Unit) start ts xs new [] → Derives parsed (rule r.Unit) start ts ys other [] → xs ≡ ys }
{}

/// The tokens are a unit, have a first fault, or have a token in too many parts: at most one of the three, in one way.
#[tactic(auto, using(crate::proofs::answers::AtMostOneAnswer::exclude))]
pub fn one_answer_of_grammar()
    ensures { (ts : List Terminal) → ExcludeEachOther ts }
{}

/// They are at least one of the three.
pub fn some_answer_of_grammar()
    ensures { (ts : List Terminal) → HasAnswer ts }
{}

/// What is met in too many parts is a token.
#[tactic(auto, using(crate::proofs::answers::AtLeastOneAnswer::at_token))]
pub fn too_deep_at_token()
    ensures { (ts : List Terminal) (k : ℕ) → IsTooDeep ts k → k < length ts }
{}

/// The preferred derivation has the same parts round each token as the parser's.
#[tactic(auto, using(crate::proofs::preferred_tree::PreferredUnits::with_parts))]
pub fn parts_are_the_grammars()
    ensures { (ts : List Terminal) (xs : List Tree) (new : Scopes) (d : Derives parsed (rule r.Unit) start ts xs new []) → HasParts ts xs (marks parsed d) }
{}

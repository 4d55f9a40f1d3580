//! The first tokens of the nonterminals, as in the parser's sets.

ghost use Rattle.std.specs.Prelude.{◌≡◌, ◌||◌};
ghost use Rattle.model_grammar.specs.GrammarForm.{mem};
ghost use Rattle.grammar_laws.specs.ParserSets as spec;
ghost use Rattle.model_grammar.specs.declared.grammar.Rule.TheVariants as rule;

use crate::kind_groups::{NON_BRACKETS, QUALIFIERS, STATEMENT_STARTS, TYPE_WORDS, UNARY_OPERATORS};
use model_grammar::grammar::Rule;
use syntax_meanings::kinds;

/// Whether the kind is one of these.
#[tactic(auto, unfolding(model_grammar::specs::GrammarForm::mem))]
pub fn is_one(kinds: &[u8], kind: u8) -> bool
    ensures { result ≡ mem kind kinds.now }
{
    for known in kinds {
        if *known == kind {
            return true;
        }
    }
    false
}

/// Whether the nonterminal derives no token, too.
#[tactic(auto, unfolding(grammar_laws::specs::ParserSets::hollow))]
pub fn is_hollow(rule: Rule) -> bool
    ensures { result ≡ spec.hollow rule }
{
    match rule {
        Rule::Attrs | Rule::Balanced => true,
        _ => false,
    }
}

/// Whether a static assertion may begin with a token of this kind.
#[tactic(auto, unfolding(grammar_laws::specs::ParserSets::firsts))]
fn begins_assertion(ahead: u8) -> bool
    ensures { result ≡ mem ahead (spec.firsts rule.Sassert) }
{
    is_one(&[kinds::STATIC_ASSERT, kinds::OLD_STATIC_ASSERT], ahead)
}

/// Whether a storage class specifier may begin with a token of this kind.
#[tactic(auto, unfolding(grammar_laws::specs::ParserSets::firsts))]
fn begins_storage(ahead: u8) -> bool
    ensures { result ≡ mem ahead (spec.firsts rule.Storage) }
{
    is_one(
        &[
            kinds::TYPEDEF,
            kinds::EXTERN,
            kinds::STATIC,
            kinds::AUTO,
            kinds::REGISTER,
            kinds::CONSTEXPR,
        ],
        ahead,
    )
}

/// Whether a type specifier may begin with a token of this kind.
#[tactic(auto, using(crate::proofs::FirstKinds::type_specifier))]
fn begins_type_specifier(ahead: u8) -> bool
    ensures { result ≡ mem ahead (spec.firsts rule.Typespec) }
{
    is_one(TYPE_WORDS, ahead)
        || is_one(
            &[
                kinds::TYPEOF,
                kinds::TYPEOF_UNQUAL,
                kinds::STRUCT,
                kinds::ENUM,
                kinds::TYPEDEF_NAME,
            ],
            ahead,
        )
}

/// Whether a type qualifier may begin with a token of this kind.
#[tactic(auto, unfolding(grammar_laws::specs::ParserSets::firsts))]
fn begins_qualifier(ahead: u8) -> bool
    ensures { result ≡ mem ahead (spec.firsts rule.Qual) }
{
    is_one(QUALIFIERS, ahead)
}

/// Whether specifiers and qualifiers may begin with a token of this kind.
#[tactic(auto, using(crate::proofs::FirstKinds::type_name))]
fn begins_type_name(ahead: u8) -> bool
    ensures { result ≡ mem ahead (spec.firsts rule.Squals) }
{
    begins_type_specifier(ahead) || begins_qualifier(ahead)
}

/// Whether declaration specifiers may begin with a token of this kind.
#[tactic(auto, using(crate::proofs::FirstKinds::specifiers))]
fn begins_specifier(ahead: u8) -> bool
    ensures { result ≡ mem ahead (spec.firsts rule.Specs) }
{
    is_one(&[kinds::INLINE, kinds::NORETURN], ahead)
        || begins_storage(ahead)
        || begins_type_name(ahead)
}

/// Whether a parameter or a function definition may begin with a token of this kind.
#[tactic(auto, using(crate::proofs::FirstKinds::parameter))]
fn begins_parameter(ahead: u8) -> bool
    ensures { result ≡ mem ahead (spec.firsts rule.Param) }
{
    ahead == kinds::OPEN_BRACKET || begins_specifier(ahead)
}

/// Whether a declaration may begin with a token of this kind.
#[tactic(auto, using(crate::proofs::FirstKinds::declaration))]
fn begins_declaration(ahead: u8) -> bool
    ensures { result ≡ mem ahead (spec.firsts rule.Declaration) }
{
    begins_assertion(ahead) || begins_parameter(ahead)
}

/// Whether a member declaration may begin with a token of this kind.
#[tactic(auto, using(crate::proofs::FirstKinds::member))]
fn begins_member(ahead: u8) -> bool
    ensures { result ≡ mem ahead (spec.firsts rule.Member) }
{
    ahead == kinds::OPEN_BRACKET || begins_assertion(ahead) || begins_type_name(ahead)
}

/// Whether a direct declarator may begin with a token of this kind.
#[tactic(auto, unfolding(grammar_laws::specs::ParserSets::firsts))]
fn begins_direct_declarator(ahead: u8) -> bool
    ensures { result ≡ mem ahead (spec.firsts rule.Direct) }
{
    is_one(
        &[kinds::OPEN_PARENTHESIS, kinds::NAME, kinds::DECLARED_NAME],
        ahead,
    )
}

/// Whether a declarator may begin with a token of this kind.
#[tactic(auto, using(crate::proofs::FirstKinds::declarator))]
fn begins_declarator(ahead: u8) -> bool
    ensures { result ≡ mem ahead (spec.firsts rule.Declarator) }
{
    ahead == kinds::STAR || begins_direct_declarator(ahead)
}

/// Whether an abstract declarator may begin with a token of this kind.
#[tactic(auto, unfolding(grammar_laws::specs::ParserSets::firsts))]
fn begins_abstract(ahead: u8) -> bool
    ensures { result ≡ mem ahead (spec.firsts rule.Abstract) }
{
    is_one(
        &[kinds::OPEN_PARENTHESIS, kinds::OPEN_BRACKET, kinds::STAR],
        ahead,
    )
}

/// Whether a primary expression may begin with a token of this kind.
#[tactic(auto, unfolding(grammar_laws::specs::ParserSets::firsts))]
fn begins_primary(ahead: u8) -> bool
    ensures { result ≡ mem ahead (spec.firsts rule.Primary) }
{
    is_one(
        &[
            kinds::TRUE,
            kinds::FALSE,
            kinds::NULLPTR,
            kinds::OPEN_PARENTHESIS,
            kinds::NAME,
            kinds::INTEGER,
            kinds::STRING_LITERAL,
        ],
        ahead,
    )
}

/// Whether an expression may begin with a token of this kind.
fn begins_expression(ahead: u8) -> bool
    ensures { result ≡ mem ahead (spec.firsts rule.Expr) }
{
    is_one(UNARY_OPERATORS, ahead) || begins_primary(ahead)
}

/// Whether an initializer may begin with a token of this kind.
#[tactic(auto, using(crate::proofs::FirstKinds::initializer))]
fn begins_initializer(ahead: u8) -> bool
    ensures { result ≡ mem ahead (spec.firsts rule.Init) }
{
    ahead == kinds::OPEN_BRACE || begins_expression(ahead)
}

/// Whether a designator may begin with a token of this kind.
#[tactic(auto, unfolding(grammar_laws::specs::ParserSets::firsts))]
fn begins_designator(ahead: u8) -> bool
    ensures { result ≡ mem ahead (spec.firsts rule.Desig) }
{
    is_one(&[kinds::OPEN_BRACKET, kinds::DOT], ahead)
}

/// Whether an item of a braced initializer may begin with a token of this kind.
#[tactic(auto, using(crate::proofs::FirstKinds::item))]
fn begins_item(ahead: u8) -> bool
    ensures { result ≡ mem ahead (spec.firsts rule.Item) }
{
    begins_designator(ahead) || begins_initializer(ahead)
}

/// Whether a label may begin with a token of this kind.
#[tactic(auto, unfolding(grammar_laws::specs::ParserSets::firsts))]
fn begins_label(ahead: u8) -> bool
    ensures { result ≡ mem ahead (spec.firsts rule.Label) }
{
    is_one(&[kinds::CASE, kinds::DEFAULT, kinds::OPEN_BRACKET], ahead)
}

/// Whether a statement may begin with a token of this kind.
fn begins_statement(ahead: u8) -> bool
    ensures { result ≡ mem ahead (spec.firsts rule.Statement) }
{
    is_one(STATEMENT_STARTS, ahead) || begins_expression(ahead)
}

/// Whether what an attribute holds may begin with a token of this kind.
fn begins_balanced(ahead: u8) -> bool
    ensures { result ≡ mem ahead (spec.firsts rule.Balanced) }
{
    is_one(NON_BRACKETS, ahead)
        || is_one(
            &[
                kinds::OPEN_PARENTHESIS,
                kinds::OPEN_BRACKET,
                kinds::OPEN_BRACE,
                kinds::CLOSING,
            ],
            ahead,
        )
}

/// Whether the nonterminal may begin with a token of this kind, where 0 is the end of the tokens.
#[tactic(auto, unfolding(grammar_laws::specs::ParserSets::firsts, model_grammar::specs::GrammarForm::mem))]
pub fn may_begin(rule: Rule, ahead: u8) -> bool
    ensures { result ≡ mem ahead (spec.firsts rule) }
{
    match rule {
        Rule::Unit | Rule::External | Rule::Declaration => begins_declaration(ahead),
        Rule::Function | Rule::Params | Rule::Param => begins_parameter(ahead),
        Rule::Sassert => begins_assertion(ahead),
        Rule::Attrs | Rule::Attr => ahead == kinds::OPEN_BRACKET,
        Rule::Specs | Rule::Spec | Rule::ParamSpecs => begins_specifier(ahead),
        Rule::Storage => begins_storage(ahead),
        Rule::Typespec => begins_type_specifier(ahead),
        Rule::Qual => begins_qualifier(ahead),
        Rule::Squals | Rule::Typename => begins_type_name(ahead),
        Rule::Struct => ahead == kinds::STRUCT,
        Rule::Members | Rule::Braces | Rule::Block | Rule::Body => ahead == kinds::OPEN_BRACE,
        Rule::Member => begins_member(ahead),
        Rule::Enum => ahead == kinds::ENUM,
        Rule::Enumr => ahead == kinds::NAME,
        Rule::Declarator | Rule::Initdecl | Rule::Declared => begins_declarator(ahead),
        Rule::Direct => begins_direct_declarator(ahead),
        Rule::Suffix | Rule::Adirect => ahead == kinds::OPEN_PARENTHESIS
            || ahead == kinds::OPEN_BRACKET,
        Rule::Abstract => begins_abstract(ahead),
        Rule::Init => begins_initializer(ahead),
        Rule::Item => begins_item(ahead),
        Rule::Desig => begins_designator(ahead),
        Rule::Label => begins_label(ahead),
        Rule::Statement => begins_statement(ahead),
        Rule::Expr
        | Rule::Assign
        | Rule::Cond
        | Rule::Oror
        | Rule::Andand
        | Rule::Bor
        | Rule::Bxor
        | Rule::Band
        | Rule::Equal
        | Rule::Rel
        | Rule::Shift
        | Rule::Sum
        | Rule::Product
        | Rule::Cast
        | Rule::Unary => begins_expression(ahead),
        Rule::Postfix | Rule::Primary => begins_primary(ahead),
        Rule::Literal => ahead == kinds::OPEN_PARENTHESIS,
        Rule::Balanced => begins_balanced(ahead),
        Rule::Typeof => ahead == kinds::TYPEOF || ahead == kinds::TYPEOF_UNQUAL,
        Rule::If => ahead == kinds::IF,
        Rule::For => ahead == kinds::FOR,
    }
}

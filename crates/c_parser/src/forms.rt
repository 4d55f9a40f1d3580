//! The parser's table: the grammar, with its choices decided by the next token, by the scopes or by a test.

ghost use Rattle.std.specs.Prelude.{◌≡◌};
ghost use Rattle.c_parser.specs.View.{form};
ghost use Rattle.grammar_laws.specs.ParserTable as spec;

use crate::{declarations as decl, statements as stat};
use model_grammar::grammar::{Act, Rule, Test};

/// The right side of a production.
pub enum Form {
    /// A token of one of these kinds, and what the scopes do at it.
    Word(&'static [u8], Act),
    Rule(Rule),
    Empty,
    Then(&'static Form, &'static Form),
    Or(&'static Form, &'static Form),
    Maybe(&'static Form),
    Many(&'static Form),
    /// The first where the test holds, the second elsewhere.
    When(Test, &'static Form, &'static Form),
    /// Any number, each where the test holds.
    Loop(Test, &'static Form),
}

/// The right side of the nonterminal.
#[tactic(auto, unfolding(grammar_laws::specs::ParserTable::table))]
pub fn body(rule: Rule) -> &'static Form
    ensures { form result.now ≡ spec.table rule }
{
    match rule {
        Rule::Unit => decl::UNIT,
        Rule::External => decl::EXTERNAL,
        Rule::Function => decl::FUNCTION,
        Rule::Declaration => decl::DECLARATION,
        Rule::Sassert => decl::SASSERT,
        Rule::Attrs => decl::ATTRS,
        Rule::Attr => decl::ATTR,
        Rule::Specs => decl::SPECS,
        Rule::Spec => decl::SPEC,
        Rule::Storage => decl::STORAGE,
        Rule::Typespec => decl::TYPESPEC,
        Rule::Qual => decl::QUAL,
        Rule::Squals => decl::SQUALS,
        Rule::Struct => decl::STRUCT,
        Rule::Members => decl::MEMBERS,
        Rule::Member => decl::MEMBER,
        Rule::Enum => decl::ENUM,
        Rule::Enumr => decl::ENUMR,
        Rule::Declarator => decl::DECLARATOR,
        Rule::Direct => decl::DIRECT,
        Rule::Suffix => decl::SUFFIX,
        Rule::Params => decl::PARAMS,
        Rule::Param => decl::PARAM,
        Rule::Typename => decl::TYPENAME,
        Rule::Abstract => decl::ABSTRACT,
        Rule::Adirect => decl::ADIRECT,
        Rule::Initdecl => decl::INITDECL,
        Rule::Init => decl::INIT,
        Rule::Braces => decl::BRACES,
        Rule::Item => decl::ITEM,
        Rule::Desig => decl::DESIG,
        Rule::Block => stat::BLOCK,
        Rule::Label => stat::LABEL,
        Rule::Statement => stat::STATEMENT,
        Rule::Expr => stat::EXPR,
        Rule::Assign => stat::ASSIGN,
        Rule::Cond => stat::COND,
        Rule::Oror => stat::OROR,
        Rule::Andand => stat::ANDAND,
        Rule::Bor => stat::BOR,
        Rule::Bxor => stat::BXOR,
        Rule::Band => stat::BAND,
        Rule::Equal => stat::EQUAL,
        Rule::Rel => stat::REL,
        Rule::Shift => stat::SHIFT,
        Rule::Sum => stat::SUM,
        Rule::Product => stat::PRODUCT,
        Rule::Cast => stat::CAST,
        Rule::Unary => stat::UNARY,
        Rule::Postfix => stat::POSTFIX,
        Rule::Primary => stat::PRIMARY,
        Rule::Literal => stat::LITERAL,
        Rule::Balanced => decl::BALANCED,
        Rule::Declared => decl::DECLARED,
        Rule::ParamSpecs => decl::PARAM_SPECS,
        Rule::Body => stat::BODY,
        Rule::Typeof => decl::TYPEOF,
        Rule::If => stat::IF,
        Rule::For => stat::FOR,
    }
}

//! What the symbols of a production stand for.
use c_tokens::CTok;
use c_tree::{
    Assertion, Block, BlockItem, Braces, Declaration, DeclaratorForm, Designator, Enumerator, Expr,
    External, InitDeclarator, Initializer, InitializerItem, MemberDeclaration, Parameter, Spec,
    Specs, Statement, Suffix, TypeName,
};
use model_grammar::syntax::Qualifier;
use model_types::marks::Span;
use sqlite_items::Items;

/// The parameters of a list, and whether `...` stands behind them.
#[derive(Drop)]
pub struct ParameterList {
    pub parameters: Items<Parameter>,
    pub is_variadic: bool,
}

/// What a symbol of a production stands for.
#[derive(Drop)]
pub enum Meaning<'t> {
    /// Attributes, which stand for nothing.
    Nothing,
    /// A token, with the number of its kind.
    Token { kind: u8, token: &'t CTok },
    Expr(Expr),
    TypeName(TypeName),
    Spec(Spec),
    Qualifier(Qualifier),
    Specs(Specs),
    Members(Items<MemberDeclaration>),
    Member(MemberDeclaration),
    Enumerator(Enumerator),
    /// A declarator whose node isn't made, since `*` may still come before it.
    Declarator(DeclaratorForm),
    Suffix(Suffix),
    Parameters(ParameterList),
    Parameter(Parameter),
    Initializer(Initializer),
    Braces(Braces),
    Item(InitializerItem),
    Designator(Designator),
    Declaration(Declaration),
    InitDeclarator(InitDeclarator),
    Assertion(Assertion),
    Statement(Statement),
    BlockItem(BlockItem),
    Block(Block),
    External(External),
    Unit(Items<External>),
}

/// What a symbol stands for, with its first and its last token, where it has tokens.
#[derive(Drop)]
pub struct Value<'t> {
    pub meaning: Meaning<'t>,
    pub tokens: Option<Span>,
}

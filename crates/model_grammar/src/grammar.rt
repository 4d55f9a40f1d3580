//! What the grammar is written in: its nonterminals, what the scopes do at a token, and what a parser asks of the
//! tokens ahead; the tokens and the trees as the grammar sees them.

use sqlite_items::Items;

/// A token as the grammar sees it (ISO/IEC 9899:2024, 6.4).
#[derive(Clone, Copy, Debug, PartialEq, Eq)]
pub struct Terminal {
    /// The number of its kind, which is that of its word or punctuator where it has one.
    pub kind: u8,
    /// For an identifier, a number that identifiers of the same spelling share and others don't.
    pub name: u32,
    /// Its rank in the list of tokens, counted from 0.
    pub rank: usize,
}

/// A tree of the grammar: a token, or a nonterminal with the trees of the symbols of its production in order.
#[derive(Debug, Drop)]
pub enum Tree {
    Leaf(Terminal),
    Node(Rule, Items<Tree>),
}

/// A declared name, and whether it is declared as a typedef name (6.7.9).
#[derive(Clone, Copy, Debug, PartialEq, Eq)]
pub struct Entry {
    pub name: u32,
    pub is_type: bool,
}

/// What is known of the declaration that is being read (6.7).
#[derive(Debug, Drop)]
pub struct Reading {
    /// Its specifiers have the word `typedef`.
    pub is_typedef: bool,
    /// The name in its declarator.
    pub name: u32,
    /// A typedef name that comes next is no type specifier of it: it has one, or a declarator has begun.
    pub typed: bool,
    /// Its declarator is that of a parameter.
    pub parameter: bool,
    /// What comes next stands next to the declared or the missing name.
    pub near: bool,
    /// A `*` stands before the name, in the same parentheses.
    pub pointer: bool,
    /// The parameters in the list that stands next to the name.
    pub held: Option<Items<Entry>>,
    /// The enumerations in whose type list it stands, and whose braces are still to come.
    pub waiting: u32,
}

/// What is as before at the end of a scope or of a part of a declarator: the number of names that are declared, and the
/// declaration that is being read.
#[derive(Debug, Drop)]
pub struct Frame {
    pub count: usize,
    pub reading: Reading,
}

/// The nonterminals of the grammar (annex A.3), in the order of its table; behind `Balanced` those that the table adds.
#[derive(Clone, Copy, Debug, PartialEq, Eq)]
pub enum Rule {
    Unit,
    External,
    Function,
    Declaration,
    Sassert,
    Attrs,
    Attr,
    Specs,
    Spec,
    Storage,
    Typespec,
    Qual,
    Squals,
    Struct,
    Members,
    Member,
    Enum,
    Enumr,
    Declarator,
    Direct,
    Suffix,
    Params,
    Param,
    Typename,
    Abstract,
    Adirect,
    Initdecl,
    Init,
    Braces,
    Item,
    Desig,
    Block,
    Label,
    Statement,
    Expr,
    Assign,
    Cond,
    Oror,
    Andand,
    Bor,
    Bxor,
    Band,
    Equal,
    Rel,
    Shift,
    Sum,
    Product,
    Cast,
    Unary,
    Postfix,
    Primary,
    Literal,
    /// Any tokens whose brackets match (6.7.13.2).
    Balanced,
    /// A declarator, with whose end its name enters the scope (6.2.1).
    Declared,
    /// The specifiers of a parameter.
    ParamSpecs,
    /// The block of a function definition.
    Body,
    /// The alternative of `typespec` that begins with `typeof` or `typeof_unqual`.
    Typeof,
    /// The alternative of `statement` that begins with `if`.
    If,
    /// The alternative of `statement` that begins with `for`.
    For,
}

/// What the scopes do at a token.
#[derive(Clone, Copy, Debug, PartialEq, Eq)]
pub enum Act {
    /// Any other token: what comes next is no part of a declarator.
    Pass,
    /// The scopes stay.
    Keep,
    /// A specifier that is no type specifier.
    Specifier,
    /// The word `typedef`.
    Typedef,
    /// The last token of a type specifier.
    TypeSpecifier,
    /// The word `struct`, `enum`, `typeof` or `typeof_unqual`.
    OpenSpecifier,
    /// The bracket before members, enumerators or the operand of `typeof`.
    Enclose,
    /// The `:` before the type of an enumeration whose braces are still to come.
    AwaitBraces,
    /// The `*` of a declarator.
    Pointer,
    /// The `(` round a declarator.
    OpenDeclarator,
    /// The `)` round a declarator.
    CloseDeclarator,
    /// The name in a declarator.
    DeclaratorName,
    /// The `[` of an array declarator.
    OpenArray,
    /// The `]` of an array declarator.
    CloseArray,
    /// The `(` of a list of parameters.
    OpenParameters,
    /// The `)` of a list of parameters.
    CloseParameters,
    /// The `,` between parameters.
    NextParameter,
    /// The `,` between declarators.
    NextDeclarator,
    /// The `;` of a declaration.
    EndDeclaration,
    /// The `(` of `if` or `for`, whose scope ends with the statement.
    OpenScope,
    /// The `{` of a block.
    OpenBlock,
    /// The `}` of a block.
    CloseBlock,
    /// An opening bracket inside an attribute.
    OpenBalanced,
    /// A closing bracket that matches the last open one inside an attribute.
    CloseBalanced,
}

/// What is asked of the scopes and of the tokens ahead, where the next token alone doesn't decide.
#[derive(Clone, Copy, Debug, PartialEq, Eq)]
pub enum Test {
    /// A function's parameters stand next to the name that is declared, or to the missing name of a type name.
    HasParameters,
    /// Behind attributes, specifiers and a declarator stands `{`.
    FunctionAhead,
    /// Neither an assertion nor attributes with nothing but `;` behind them come next.
    SpecifiersAhead,
    /// `[` and `[` come next.
    AttributeAhead,
    /// A type specifier or a qualifier comes next.
    TypeAhead,
    /// `{` comes next, and not that of an enumeration whose braces are still to come.
    BraceAhead,
    /// Of an enumeration: it has no tag, or braces come that no other enumeration takes.
    EnumeratorsAhead,
    /// `,` and a name come next.
    EnumeratorAhead,
    /// `,` comes next, and no `...` behind it.
    ParameterAhead,
    /// `,` comes next, and no `}` behind it.
    ItemAhead,
    /// In a parameter, behind any `*`, attributes, qualifiers and `(`, stands the name of a declarator.
    DeclaratorAhead,
    /// A parenthesis round an abstract declarator comes next, and no list of parameters.
    AbstractAhead,
    /// A declaration comes next in a block.
    DeclarationAhead,
    /// Behind attributes, if any, stands `case` or `default`.
    LabelAhead,
    /// A type name in parentheses comes next, and no `{` behind it.
    CastAhead,
    /// Something else comes next.
    OperandAhead,
    /// No parenthesis comes next behind which a type name begins.
    ParenthesizedExpression,
    /// `else` comes next.
    ElseAhead,
}

/// Where a token of a parameter's declarator stands, before its name.
#[derive(Clone, Copy, Debug, PartialEq, Eq)]
pub enum Before {
    /// At the start, or behind `(`; a typedef name there is the declarator's, or a type specifier.
    AtStart(bool),
    /// Behind a `*` and its attributes.
    BehindStar,
    /// Behind a qualifier of a `*`.
    BehindQualifier,
    /// In an attribute of which so many brackets are open.
    Inside(usize),
}

/// Where a token among the specifiers of a declaration stands.
#[derive(Clone, Copy, Debug, PartialEq, Eq)]
pub enum Within {
    /// Between two specifiers; a type specifier stands before, or none.
    Between(bool),
    /// Behind the `:` of an enumeration, with at most qualifiers between.
    BehindColon,
    /// Behind `struct`, or behind `enum`, and their attributes.
    BehindHead(bool),
    /// Behind the tag of a structure.
    BehindTag,
    /// Behind `typeof` or `typeof_unqual`.
    BehindTypeof,
    /// In an attribute behind `struct`, or behind `enum`, of which so many brackets are open.
    Attribute(bool, usize),
    /// In brackets of which so many are open.
    Group(usize),
}

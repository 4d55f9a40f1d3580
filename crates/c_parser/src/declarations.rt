//! The right sides of the productions of declarations (ISO/IEC 9899:2024, 6.7 and 6.9).

use crate::forms::Form;
use crate::kind_groups::{NON_BRACKETS, QUALIFIERS, TYPE_WORDS};
use crate::notation::{choice, many, many_while, maybe, nothing, rule, sequence, token, when};

pub const UNIT: &Form = sequence![rule![External], many![rule![External]]];

pub const EXTERNAL: &Form = when![FunctionAhead, rule![Function], rule![Declaration]];

pub const FUNCTION: &Form = sequence![rule![Attrs], rule![Specs], rule![Declared], rule![Body]];

pub const DECLARATION: &Form = when![
    SpecifiersAhead,
    sequence![
        rule![Attrs],
        rule![Specs],
        maybe![
            rule![Initdecl],
            many![token![COMMA => NextDeclarator], rule![Initdecl]]
        ],
        token![SEMICOLON => EndDeclaration],
    ],
    choice![
        rule![Sassert],
        sequence![rule![Attr], rule![Attrs], token![SEMICOLON]]
    ],
];

pub const SASSERT: &Form = sequence![
    token![STATIC_ASSERT | OLD_STATIC_ASSERT],
    token![OPEN_PARENTHESIS],
    rule![Cond],
    maybe![token![COMMA], token![STRING_LITERAL]],
    token![CLOSE_PARENTHESIS],
    token![SEMICOLON],
];

pub const ATTRS: &Form = many![rule![Attr]];

/// Attributes where an array declarator may come behind them.
const NEAR_ATTRS: &Form = many_while![AttributeAhead, rule![Attr]];

pub const ATTR: &Form = sequence![
    token![OPEN_BRACKET => Keep],
    token![OPEN_BRACKET => Keep],
    rule![Balanced],
    token![CLOSE_BRACKET => Keep],
    token![CLOSE_BRACKET => Keep],
];

pub const SPECS: &Form = sequence![rule![Spec], many![rule![Spec]]];

pub const SPEC: &Form = choice![
    rule![Storage],
    rule![Typespec],
    rule![Qual],
    token![INLINE | NORETURN => Specifier]
];

pub const STORAGE: &Form = choice![
    token![TYPEDEF => Typedef],
    token![EXTERN | STATIC | AUTO | REGISTER | CONSTEXPR => Specifier],
];

pub const TYPESPEC: &Form = choice![
    token![in TYPE_WORDS => TypeSpecifier],
    rule![Struct],
    rule![Enum],
    token![TYPEDEF_NAME => TypeSpecifier],
    rule![Typeof],
];

pub const QUAL: &Form = token![in QUALIFIERS => Specifier];

pub const SQUALS: &Form = sequence![
    choice![rule![Typespec], rule![Qual]],
    many_while![TypeAhead, choice![rule![Typespec], rule![Qual]]],
];

pub const STRUCT: &Form = sequence![
    token![STRUCT => OpenSpecifier],
    rule![Attrs],
    choice![
        sequence![
            token![NAME | TYPEDEF_NAME => TypeSpecifier],
            when![BraceAhead, rule![Members], nothing![]],
        ],
        rule![Members],
    ],
];

pub const MEMBERS: &Form = sequence![
    token![OPEN_BRACE => Enclose],
    rule![Member],
    many![rule![Member]],
    token![CLOSE_BRACE => TypeSpecifier],
];

pub const MEMBER: &Form = choice![
    sequence![
        rule![Attrs],
        rule![Squals],
        rule![Declarator],
        many![token![COMMA => NextDeclarator], rule![Declarator]],
        token![SEMICOLON],
    ],
    rule![Sassert],
];

pub const ENUM: &Form = sequence![
    token![ENUM => OpenSpecifier],
    rule![Attrs],
    when![
        EnumeratorsAhead,
        sequence![
            maybe![token![NAME | TYPEDEF_NAME => TypeSpecifier]],
            maybe![token![COLON => AwaitBraces], rule![Squals]],
            token![OPEN_BRACE => Enclose],
            rule![Enumr],
            many_while![EnumeratorAhead, token![COMMA], rule![Enumr]],
            maybe![token![COMMA]],
            token![CLOSE_BRACE => TypeSpecifier],
        ],
        sequence![
            token![NAME | TYPEDEF_NAME => TypeSpecifier],
            maybe![token![COLON], rule![Squals]],
        ],
    ],
];

pub const ENUMR: &Form = sequence![
    token![NAME],
    rule![Attrs],
    maybe![token![EQUALS], rule![Cond]]
];

pub const DECLARATOR: &Form = sequence![
    many![token![STAR => Pointer], rule![Attrs], many![rule![Qual]]],
    rule![Direct]
];

pub const DIRECT: &Form = sequence![
    choice![
        sequence![token![NAME | DECLARED_NAME => DeclaratorName], NEAR_ATTRS],
        sequence![
            token![OPEN_PARENTHESIS => OpenDeclarator],
            rule![Declarator],
            token![CLOSE_PARENTHESIS => CloseDeclarator],
        ],
    ],
    many![rule![Suffix]],
];

pub const SUFFIX: &Form = choice![
    sequence![
        token![OPEN_BRACKET => OpenArray],
        maybe![rule![Cond]],
        token![CLOSE_BRACKET => CloseArray],
        NEAR_ATTRS,
    ],
    sequence![
        token![OPEN_PARENTHESIS => OpenParameters],
        maybe![rule![Params]],
        token![CLOSE_PARENTHESIS => CloseParameters],
        NEAR_ATTRS,
    ],
];

pub const PARAMS: &Form = sequence![
    rule![Param],
    many_while![ParameterAhead, token![COMMA => NextParameter], rule![Param]],
    maybe![token![COMMA], token![ELLIPSIS]],
];

pub const PARAM: &Form = sequence![
    rule![Attrs],
    rule![ParamSpecs],
    maybe![when![DeclaratorAhead, rule![Declared], rule![Abstract]]],
];

pub const TYPENAME: &Form = sequence![rule![Squals], maybe![rule![Abstract]]];

pub const ABSTRACT: &Form = choice![
    sequence![
        token![STAR => Pointer],
        NEAR_ATTRS,
        many![rule![Qual]],
        maybe![rule![Abstract]]
    ],
    rule![Adirect],
];

pub const ADIRECT: &Form = sequence![
    when![
        AbstractAhead,
        sequence![
            token![OPEN_PARENTHESIS => OpenDeclarator],
            rule![Abstract],
            token![CLOSE_PARENTHESIS => CloseDeclarator],
        ],
        rule![Suffix],
    ],
    many![rule![Suffix]],
];

pub const INITDECL: &Form = sequence![rule![Declared], maybe![token![EQUALS], rule![Init]]];

pub const INIT: &Form = choice![rule![Assign], rule![Braces]];

pub const BRACES: &Form = sequence![
    token![OPEN_BRACE],
    maybe![
        rule![Item],
        many_while![ItemAhead, token![COMMA], rule![Item]],
        maybe![token![COMMA]],
    ],
    token![CLOSE_BRACE],
];

pub const ITEM: &Form = sequence![
    maybe![rule![Desig], many![rule![Desig]], token![EQUALS]],
    rule![Init]
];

pub const DESIG: &Form = choice![
    sequence![token![OPEN_BRACKET], rule![Cond], token![CLOSE_BRACKET]],
    sequence![token![DOT], token![NAME | TYPEDEF_NAME]],
];

pub const BALANCED: &Form = many![choice![
    token![in NON_BRACKETS => Keep],
    token![OPEN_PARENTHESIS | OPEN_BRACKET | OPEN_BRACE => OpenBalanced],
    token![CLOSING => CloseBalanced],
]];

pub const DECLARED: &Form = rule![Declarator];

pub const PARAM_SPECS: &Form = rule![Specs];

pub const TYPEOF: &Form = sequence![
    token![TYPEOF | TYPEOF_UNQUAL => OpenSpecifier],
    token![OPEN_PARENTHESIS => Enclose],
    choice![rule![Expr], rule![Typename]],
    token![CLOSE_PARENTHESIS => TypeSpecifier],
];

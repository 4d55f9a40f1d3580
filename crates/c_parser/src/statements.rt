//! The right sides of the productions of statements and expressions (ISO/IEC 9899:2024, 6.5 and 6.8).

use crate::forms::Form;
use crate::notation::{choice, many, many_while, maybe, nothing, rule, sequence, token, when};

pub const BLOCK: &Form = sequence![
    token![OPEN_BRACE => OpenBlock],
    many![when![
        DeclarationAhead,
        rule![Declaration],
        when![LabelAhead, rule![Label], rule![Statement]],
    ]],
    token![CLOSE_BRACE => CloseBlock],
];

pub const LABEL: &Form = sequence![
    rule![Attrs],
    choice![sequence![token![CASE], rule![Cond]], token![DEFAULT]],
    token![COLON],
];

pub const STATEMENT: &Form = sequence![
    rule![Attrs],
    choice![
        rule![Block],
        sequence![maybe![rule![Expr]], token![SEMICOLON]],
        rule![If],
        sequence![
            token![SWITCH],
            token![OPEN_PARENTHESIS],
            rule![Expr],
            token![CLOSE_PARENTHESIS],
            rule![Statement],
        ],
        sequence![
            token![WHILE],
            token![OPEN_PARENTHESIS],
            rule![Expr],
            token![CLOSE_PARENTHESIS],
            rule![Statement],
        ],
        sequence![
            token![DO],
            rule![Statement],
            token![WHILE],
            token![OPEN_PARENTHESIS],
            rule![Expr],
            token![CLOSE_PARENTHESIS],
            token![SEMICOLON],
        ],
        rule![For],
        sequence![token![BREAK], token![SEMICOLON]],
        sequence![token![CONTINUE], token![SEMICOLON]],
        sequence![token![RETURN], maybe![rule![Expr]], token![SEMICOLON]],
        sequence![token![DEFER], rule![Statement]],
    ],
];

pub const EXPR: &Form = sequence![rule![Assign], many![token![COMMA], rule![Assign]]];

pub const ASSIGN: &Form = sequence![
    rule![Cond],
    maybe![
        token![
            EQUALS
                | STAR_EQUALS
                | SLASH_EQUALS
                | PERCENT_EQUALS
                | PLUS_EQUALS
                | MINUS_EQUALS
                | SHIFT_LEFT_EQUALS
                | SHIFT_RIGHT_EQUALS
                | AMPERSAND_EQUALS
                | CARET_EQUALS
                | BAR_EQUALS
        ],
        rule![Assign],
    ],
];

pub const COND: &Form = sequence![
    rule![Oror],
    maybe![token![QUESTION], rule![Expr], token![COLON], rule![Cond]]
];

pub const OROR: &Form = sequence![rule![Andand], many![token![BAR_BAR], rule![Andand]]];

pub const ANDAND: &Form = sequence![rule![Bor], many![token![AMPERSAND_AMPERSAND], rule![Bor]]];

pub const BOR: &Form = sequence![rule![Bxor], many![token![BAR], rule![Bxor]]];

pub const BXOR: &Form = sequence![rule![Band], many![token![CARET], rule![Band]]];

pub const BAND: &Form = sequence![rule![Equal], many![token![AMPERSAND], rule![Equal]]];

pub const EQUAL: &Form = sequence![
    rule![Rel],
    many![token![EQUALS_EQUALS | EXCLAMATION_EQUALS], rule![Rel]]
];

pub const REL: &Form = sequence![
    rule![Shift],
    many![
        token![LESS | GREATER | LESS_EQUALS | GREATER_EQUALS],
        rule![Shift]
    ],
];

pub const SHIFT: &Form = sequence![
    rule![Sum],
    many![token![SHIFT_LEFT | SHIFT_RIGHT], rule![Sum]]
];

pub const SUM: &Form = sequence![rule![Product], many![token![PLUS | MINUS], rule![Product]]];

pub const PRODUCT: &Form = sequence![
    rule![Cast],
    many![token![STAR | SLASH | PERCENT], rule![Cast]]
];

pub const CAST: &Form = when![
    CastAhead,
    sequence![
        token![OPEN_PARENTHESIS],
        rule![Typename],
        token![CLOSE_PARENTHESIS],
        rule![Cast]
    ],
    rule![Unary],
];

pub const UNARY: &Form = choice![
    rule![Postfix],
    sequence![token![PLUS_PLUS | MINUS_MINUS], rule![Unary]],
    sequence![
        token![AMPERSAND | STAR | PLUS | MINUS | TILDE | EXCLAMATION],
        rule![Cast]
    ],
    sequence![
        token![SIZEOF],
        when![
            OperandAhead,
            rule![Unary],
            sequence![
                token![OPEN_PARENTHESIS],
                rule![Typename],
                token![CLOSE_PARENTHESIS]
            ],
        ],
    ],
    sequence![
        token![ALIGNOF | OLD_ALIGNOF],
        token![OPEN_PARENTHESIS],
        rule![Typename],
        token![CLOSE_PARENTHESIS],
    ],
];

pub const POSTFIX: &Form = sequence![
    rule![Primary],
    many![choice![
        sequence![token![OPEN_BRACKET], rule![Expr], token![CLOSE_BRACKET]],
        sequence![
            token![OPEN_PARENTHESIS],
            maybe![rule![Assign], many![token![COMMA], rule![Assign]]],
            token![CLOSE_PARENTHESIS],
        ],
        sequence![token![DOT], token![NAME | TYPEDEF_NAME]],
        sequence![token![ARROW], token![NAME | TYPEDEF_NAME]],
        token![PLUS_PLUS | MINUS_MINUS],
    ]],
];

pub const PRIMARY: &Form = choice![
    token![NAME],
    token![INTEGER],
    token![STRING_LITERAL],
    token![TRUE | FALSE | NULLPTR],
    when![
        ParenthesizedExpression,
        sequence![
            token![OPEN_PARENTHESIS],
            rule![Expr],
            token![CLOSE_PARENTHESIS]
        ],
        rule![Literal],
    ],
];

pub const LITERAL: &Form = sequence![
    token![OPEN_PARENTHESIS],
    rule![Typename],
    token![CLOSE_PARENTHESIS => Keep],
    when![HasParameters, rule![Block], rule![Braces]],
];

pub const BODY: &Form = rule![Block];

pub const IF: &Form = sequence![
    token![IF],
    token![OPEN_PARENTHESIS => OpenScope],
    maybe![rule![Declaration]],
    rule![Expr],
    token![CLOSE_PARENTHESIS],
    rule![Statement],
    when![
        ElseAhead,
        sequence![token![ELSE], rule![Statement]],
        nothing![]
    ],
];

pub const FOR: &Form = sequence![
    token![FOR],
    token![OPEN_PARENTHESIS => OpenScope],
    choice![
        rule![Declaration],
        sequence![maybe![rule![Expr]], token![SEMICOLON]]
    ],
    maybe![rule![Expr]],
    token![SEMICOLON],
    maybe![rule![Expr]],
    token![CLOSE_PARENTHESIS],
    rule![Statement],
];

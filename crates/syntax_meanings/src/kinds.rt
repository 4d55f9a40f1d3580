//! The kinds of terminals as numbers: words, then punctuators, by their numbers in the vocabulary, then the others.

/// `static_assert`
pub const STATIC_ASSERT: u8 = 1;
/// `_Static_assert`
pub const OLD_STATIC_ASSERT: u8 = 2;
/// `inline`
pub const INLINE: u8 = 3;
/// `_Noreturn`
pub const NORETURN: u8 = 4;
/// `typedef`
pub const TYPEDEF: u8 = 5;
/// `extern`
pub const EXTERN: u8 = 6;
/// `static`
pub const STATIC: u8 = 7;
/// `auto`
pub const AUTO: u8 = 8;
/// `register`
pub const REGISTER: u8 = 9;
/// `constexpr`
pub const CONSTEXPR: u8 = 10;
/// `void`
pub const VOID: u8 = 11;
/// `char`
pub const CHAR: u8 = 12;
/// `short`
pub const SHORT: u8 = 13;
/// `int`
pub const INT: u8 = 14;
/// `long`
pub const LONG: u8 = 15;
/// `signed`
pub const SIGNED: u8 = 16;
/// `unsigned`
pub const UNSIGNED: u8 = 17;
/// `bool`
pub const BOOL: u8 = 18;
/// `_Bool`
pub const OLD_BOOL: u8 = 19;
/// `typeof`
pub const TYPEOF: u8 = 20;
/// `typeof_unqual`
pub const TYPEOF_UNQUAL: u8 = 21;
/// `const`
pub const CONST: u8 = 22;
/// `restrict`
pub const RESTRICT: u8 = 23;
/// `_Owner`
pub const OWNER: u8 = 24;
/// `_View`
pub const VIEW: u8 = 25;
/// `_Opt`
pub const OPT: u8 = 26;
/// `struct`
pub const STRUCT: u8 = 27;
/// `enum`
pub const ENUM: u8 = 28;
/// `case`
pub const CASE: u8 = 29;
/// `default`
pub const DEFAULT: u8 = 30;
/// `if`
pub const IF: u8 = 31;
/// `else`
pub const ELSE: u8 = 32;
/// `switch`
pub const SWITCH: u8 = 33;
/// `while`
pub const WHILE: u8 = 34;
/// `do`
pub const DO: u8 = 35;
/// `for`
pub const FOR: u8 = 36;
/// `break`
pub const BREAK: u8 = 37;
/// `continue`
pub const CONTINUE: u8 = 38;
/// `return`
pub const RETURN: u8 = 39;
/// `defer`
pub const DEFER: u8 = 40;
/// `sizeof`
pub const SIZEOF: u8 = 41;
/// `alignof`
pub const ALIGNOF: u8 = 42;
/// `_Alignof`
pub const OLD_ALIGNOF: u8 = 43;
/// `true`
pub const TRUE: u8 = 44;
/// `false`
pub const FALSE: u8 = 45;
/// `nullptr`
pub const NULLPTR: u8 = 46;
/// `alignas`
pub const ALIGNAS: u8 = 47;
/// `_Alignas`
pub const OLD_ALIGNAS: u8 = 48;
/// `_Atomic`
pub const ATOMIC: u8 = 49;
/// `_BitInt`
pub const BIT_INT: u8 = 50;
/// `_Complex`
pub const COMPLEX: u8 = 51;
/// `_Decimal32`
pub const DECIMAL32: u8 = 52;
/// `_Decimal64`
pub const DECIMAL64: u8 = 53;
/// `_Decimal128`
pub const DECIMAL128: u8 = 54;
/// `double`
pub const DOUBLE: u8 = 55;
/// `float`
pub const FLOAT: u8 = 56;
/// `_Generic`
pub const GENERIC: u8 = 57;
/// `goto`
pub const GOTO: u8 = 58;
/// `_Imaginary`
pub const IMAGINARY: u8 = 59;
/// `thread_local`
pub const THREAD_LOCAL: u8 = 60;
/// `_Thread_local`
pub const OLD_THREAD_LOCAL: u8 = 61;
/// `union`
pub const UNION: u8 = 62;
/// `volatile`
pub const VOLATILE: u8 = 63;
/// `,`
pub const COMMA: u8 = 64;
/// `;`
pub const SEMICOLON: u8 = 65;
/// `(`
pub const OPEN_PARENTHESIS: u8 = 66;
/// `)`
pub const CLOSE_PARENTHESIS: u8 = 67;
/// `[`
pub const OPEN_BRACKET: u8 = 68;
/// `]`
pub const CLOSE_BRACKET: u8 = 69;
/// `{`
pub const OPEN_BRACE: u8 = 70;
/// `}`
pub const CLOSE_BRACE: u8 = 71;
/// `:`
pub const COLON: u8 = 72;
/// `=`
pub const EQUALS: u8 = 73;
/// `*`
pub const STAR: u8 = 74;
/// `...`
pub const ELLIPSIS: u8 = 75;
/// `.`
pub const DOT: u8 = 76;
/// `*=`
pub const STAR_EQUALS: u8 = 77;
/// `/=`
pub const SLASH_EQUALS: u8 = 78;
/// `%=`
pub const PERCENT_EQUALS: u8 = 79;
/// `+=`
pub const PLUS_EQUALS: u8 = 80;
/// `-=`
pub const MINUS_EQUALS: u8 = 81;
/// `<<=`
pub const SHIFT_LEFT_EQUALS: u8 = 82;
/// `>>=`
pub const SHIFT_RIGHT_EQUALS: u8 = 83;
/// `&=`
pub const AMPERSAND_EQUALS: u8 = 84;
/// `^=`
pub const CARET_EQUALS: u8 = 85;
/// `|=`
pub const BAR_EQUALS: u8 = 86;
/// `?`
pub const QUESTION: u8 = 87;
/// `||`
pub const BAR_BAR: u8 = 88;
/// `&&`
pub const AMPERSAND_AMPERSAND: u8 = 89;
/// `|`
pub const BAR: u8 = 90;
/// `^`
pub const CARET: u8 = 91;
/// `&`
pub const AMPERSAND: u8 = 92;
/// `==`
pub const EQUALS_EQUALS: u8 = 93;
/// `!=`
pub const EXCLAMATION_EQUALS: u8 = 94;
/// `<`
pub const LESS: u8 = 95;
/// `>`
pub const GREATER: u8 = 96;
/// `<=`
pub const LESS_EQUALS: u8 = 97;
/// `>=`
pub const GREATER_EQUALS: u8 = 98;
/// `<<`
pub const SHIFT_LEFT: u8 = 99;
/// `>>`
pub const SHIFT_RIGHT: u8 = 100;
/// `+`
pub const PLUS: u8 = 101;
/// `-`
pub const MINUS: u8 = 102;
/// `/`
pub const SLASH: u8 = 103;
/// `%`
pub const PERCENT: u8 = 104;
/// `++`
pub const PLUS_PLUS: u8 = 105;
/// `--`
pub const MINUS_MINUS: u8 = 106;
/// `~`
pub const TILDE: u8 = 107;
/// `!`
pub const EXCLAMATION: u8 = 108;
/// `->`
pub const ARROW: u8 = 109;
/// `::`
pub const COLON_COLON: u8 = 110;
/// An identifier that is no typedef name.
pub const NAME: u8 = 111;
/// A typedef name that a list of specifiers would take.
pub const TYPEDEF_NAME: u8 = 112;
/// A typedef name that no list of specifiers takes.
pub const DECLARED_NAME: u8 = 113;
/// An integer constant or a character constant.
pub const INTEGER: u8 = 114;
/// A string literal.
pub const STRING_LITERAL: u8 = 115;
/// A closing bracket that matches the last open one inside an attribute.
pub const CLOSING: u8 = 116;
/// A closing bracket that matches no open one there.
pub const STRAY: u8 = 117;

//! The texts of the rules and of the limits.
ghost use Rattle.std.specs.Prelude.{◌≡◌, map};
ghost use Rattle.cake_cli.specs.RuleTexts as spec;

use cake_base::{Family, Limit, Rule};

const PREPROCESSING_TEXTS: [&str; 20] = [
    "macro redefined with another text",
    "malformed #define",
    "# is not followed by a parameter",
    "## stands at an end of the replacement",
    "pasting makes no single token",
    "wrong number of macro arguments",
    "macro call is not ended",
    "__VA_ARGS__ or __VA_OPT__ is misplaced",
    "reserved macro name",
    "include file not found",
    "#error directive",
    "conditional directive without its #if",
    "#if is not ended",
    "malformed #if expression",
    "#if expression overflows or divides by zero",
    "unknown directive",
    "malformed #include",
    "malformed #pragma cake",
    "macro name is missing",
    "directive or operator is left out",
];

const TOKEN_TEXTS: [&str; 8] = [
    "comment is not ended",
    "string or character constant is not ended",
    "character constant must hold one character",
    "bad escape",
    "malformed number or suffix",
    "integer constant fits no type",
    "floating constant",
    "prefixed literal or stray character",
];

const SYNTAX_TEXTS: [&str; 1] = ["syntax error"];

const CONSTRAINT_TEXTS: [&str; 48] = [
    "name begins with cake_",
    "name is declared twice in one scope",
    "redeclared with another type",
    "linkage of declarations disagrees",
    "name is not declared",
    "tag is of another kind or defined twice",
    "built-in function is defined or declared otherwise",
    "internal function is used and not defined",
    "operand has the wrong type",
    "left side cannot be changed",
    "operand has no address",
    "pointer to a complete object is needed",
    "no such member",
    "called value is no function",
    "wrong number of arguments",
    "value cannot be converted to the wanted type",
    "conversion drops a qualifier",
    "cast is not allowed",
    "pointers do not agree",
    "operands of ?: do not agree",
    "value of type void is used",
    "complete object type is needed",
    "constant expression is needed",
    "constant expression is undefined",
    "array length or type size is out of range",
    "function literal names an automatic object of its surroundings",
    "specifiers do not combine",
    "type is impossible",
    "ownership qualifier is misplaced",
    "enumerator is out of range",
    "auto needs one plain initializer",
    "constexpr object needs a constant of its type",
    "too many initializers",
    "designator does not fit",
    "initializer does not fit the type",
    "static_assert failed",
    "definition is no function or has a bad parameter",
    "variadic function is defined",
    "function or object is defined twice",
    "case or default stands outside a switch body",
    "case value is repeated",
    "break or continue stands outside",
    "defer stands directly in a switch body",
    "deferred statement is left",
    "return does not fit the result",
    "condition has the wrong type",
    "main has the wrong type",
    "storage class is not allowed here",
];

const FINDING_TEXTS: [&str; 9] = [
    "owner is lost at the end of its lifetime",
    "owner is lost by assignment",
    "moved owner is used",
    "deleted owner is used",
    "uninitialized pointer is used",
    "possible null is dereferenced",
    "possible null is given to a pointer without _Opt",
    "owner result is dropped",
    "view is given to an owner",
];

const ASIDE_TEXTS: [&str; 12] = [
    "address of an owner is taken",
    "owner has static storage",
    "struct has an owner member",
    "array of owners",
    "owner behind a pointer",
    "owner is assigned inside an expression",
    "owner is changed by arithmetic",
    "owner of an incomplete struct is converted",
    "owner value passes through ?: or comma",
    "compound literal is an owner",
    "cast changes ownership in a function type",
    "function is too large for the flow check",
];

const LIMIT_TEXTS: [&str; 8] = [
    "bytes of all files",
    "files",
    "include depth",
    "tokens made by macros",
    "tokens of the unit",
    "nesting",
    "initialised scalars",
    "deferred weight",
];

/// The text of a number, counted from 1; the empty text where there is none.
fn numbered(texts: &[&'static str], number: u32) -> &'static str
    ensures { result.now ≡ spec.numbered_text (map (λ t. t.now) texts.now) number }
{
    match number.checked_sub(1) {
        None => "",
        Some(at) => match texts.get(at as usize) {
            None => "",
            Some(text) => text,
        },
    }
}

/// The text of a rule; the empty text where the family has no rule of that number.
pub fn rule_text(rule: Rule) -> &'static str
    ensures { result.now ≡ spec.rule_text rule }
{
    match rule.family {
        Family::P => numbered(&PREPROCESSING_TEXTS, rule.number),
        Family::L => numbered(&TOKEN_TEXTS, rule.number),
        Family::S => numbered(&SYNTAX_TEXTS, rule.number),
        Family::C => numbered(&CONSTRAINT_TEXTS, rule.number),
        Family::F => numbered(&FINDING_TEXTS, rule.number),
        Family::G => numbered(&ASIDE_TEXTS, rule.number),
    }
}

/// The text of a limit; the empty text where there is no limit of that number.
pub fn limit_text(limit: Limit) -> &'static str
    ensures { result.now ≡ spec.limit_text limit }
{
    numbered(&LIMIT_TEXTS, limit.number)
}

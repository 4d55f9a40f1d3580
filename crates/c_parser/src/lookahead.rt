//! What the parser asks of the tokens ahead.

ghost use Rattle.std.specs.Prelude.{◌≡◌, ◌∷◌, [], true, false, ◌+◌, ◌<◌, ◌≤◌, ◌^◌, ◌&&◌, ◌||◌, not, IfSome, MatchOption};
ghost use Rattle.grammar_laws.specs.ParserTests as spec;
ghost use Rattle.model_grammar.specs.SyntaxTree as tree;
ghost use Rattle.model_grammar.specs.declared.grammar.Before.TheVariants as before;
ghost use Rattle.model_grammar.specs.declared.grammar.Within.TheVariants as within;

use crate::brackets::{is_closing, is_opening};
use crate::kind_groups::TYPE_WORDS;
use crate::sets::{is_one, may_begin};
use crate::typedef_names::TypedefNames;
use model_grammar::grammar::{Before, Rule, Terminal, Test, Within};
use syntax_meanings::kinds;

/// The first token, and those behind it.
pub fn split(tokens: &[Terminal]) -> Option<(Terminal, &[Terminal])>
    ensures { MatchOption result (tokens.now ≡ []) (λ p. tokens.now ≡ p.0 ∷ p.1.now) }
{
    match tokens {
        [first, rest @ ..] => Some((*first, rest)),
        [] => None,
    }
}

/// Whether the first token is of this kind.
fn sees(kind: u8, tokens: &[Terminal]) -> bool
    ensures { result ≡ spec.sees kind tokens.now }
{
    match tokens {
        [first, ..] => first.kind == kind,
        [] => false,
    }
}

/// Whether an attribute comes next.
fn sees_attribute(tokens: &[Terminal]) -> bool
    ensures { result ≡ spec.sees_attribute tokens.now }
{
    match tokens {
        [first, second, ..] => {
            first.kind == kinds::OPEN_BRACKET && second.kind == kinds::OPEN_BRACKET
        }
        _ => false,
    }
}

/// Whether the first token may begin the nonterminal.
fn may_come(rule: Rule, names: &TypedefNames, tokens: &[Terminal]) -> bool
    ensures { result ≡ spec.may_come rule names.now tokens.now }
{
    match tokens {
        [first, ..] => may_begin(rule, names.kind(*first)),
        [] => false,
    }
}

/// Whether a type specifier or a qualifier comes next.
#[tactic(auto, unfolding(grammar_laws::specs::ParserSets::firsts))]
fn sees_type(names: &TypedefNames, tokens: &[Terminal]) -> bool
    ensures { result ≡ tree.sees_type names.now tokens.now }
{
    may_come(Rule::Squals, names, tokens)
}

/// What is behind the bracket that closes the first.
#[tactic(auto, unfolding(grammar_laws::specs::ParserTests::past_brackets))]
fn past_brackets(tokens: &[Terminal]) -> &[Terminal]
    ensures { result.now ≡ spec.past_brackets 0 tokens.now }
{
    let mut rest = tokens;
    let mut depth: usize = 0;
    while let Some((first, more)) = split(rest) {
        rest = more;
        if is_opening(first.kind) {
            depth += 1;
        } else if is_closing(first.kind) {
            if depth == 1 {
                return rest;
            }
            depth = depth.saturating_sub(1);
        }
    }
    rest
}

/// What is behind the attributes that come next.
#[tactic(auto, unfolding(grammar_laws::specs::ParserTests::past_attributes))]
fn past_attributes(tokens: &[Terminal]) -> &[Terminal]
    ensures { result.now ≡ spec.past_attributes 0 tokens.now }
{
    let mut rest = tokens;
    let mut depth: usize = 0;
    while let Some((first, more)) = split(rest) {
        if depth == 0 && !sees_attribute(rest) {
            return rest;
        }
        rest = more;
        if is_opening(first.kind) {
            depth += 1;
        } else if is_closing(first.kind) {
            depth = depth.saturating_sub(1);
        }
    }
    rest
}

/// Whether an identifier comes next that is no typedef name.
fn sees_name(names: &TypedefNames, tokens: &[Terminal]) -> bool
    ensures { result ≡ spec.sees_name names.now tokens.now }
{
    match tokens {
        [first, ..] => names.kind(*first) == kinds::NAME,
        [] => false,
    }
}

/// Whether the token is the name of the declarator.
fn is_name(before: Before, names: &TypedefNames, token: Terminal) -> bool
    ensures { result ≡ spec.is_name before names.now token }
{
    token.kind == kinds::NAME && (!names.names_type(token.name) || declares(before))
}

/// Whether a typedef name there is the name of the declarator.
fn declares(before: Before) -> bool
    ensures { result ≡ spec.declares before }
{
    match before {
        Before::AtStart(typed) => typed,
        Before::BehindStar | Before::BehindQualifier | Before::Inside(_) => true,
    }
}

/// What stands behind a token inside an attribute of a declarator.
fn inside_step(depth: usize, kind: u8) -> Before
    requires { depth < 2 ^ 63 }
    ensures place { result ≡ spec.inside_step depth kind }
    ensures grown { spec.opened result ≤ depth + 1 }
{
    if is_opening(kind) {
        Before::Inside(depth + 1)
    } else if !is_closing(kind) {
        Before::Inside(depth)
    } else if depth == 1 {
        Before::BehindStar
    } else {
        Before::Inside(depth.saturating_sub(1))
    }
}

/// Where what is behind the first token of a declarator stands, outside attributes.
fn outside_step(is_behind: bool, is_star: bool, kind: u8, is_attribute: bool) -> Option<Before>
    ensures place { result ≡ spec.outside_step is_behind is_star kind is_attribute }
    ensures grown { IfSome result (λ next. spec.opened next ≤ 1) }
{
    if kind == kinds::STAR {
        Some(Before::BehindStar)
    } else if kind == kinds::OPEN_PARENTHESIS {
        Some(Before::AtStart(false))
    } else if is_behind && may_begin(Rule::Qual, kind) {
        Some(Before::BehindQualifier)
    } else if is_star && is_attribute {
        Some(Before::Inside(1))
    } else {
        None
    }
}

/// Where what is behind the first token of a declarator stands.
#[tactic(auto, unfolding(grammar_laws::specs::ParserTests::declarator_step))]
fn declarator_step(before: Before, kind: u8, is_attribute: bool) -> Option<Before>
    requires { spec.opened before < 2 ^ 63 }
    ensures place { result ≡ spec.declarator_step before kind is_attribute }
    ensures grown { IfSome result (λ next. spec.opened next ≤ spec.opened before + 1) }
{
    match before {
        Before::Inside(depth) => Some(inside_step(depth, kind)),
        Before::AtStart(_) => outside_step(false, false, kind, is_attribute),
        Before::BehindStar => outside_step(true, true, kind, is_attribute),
        Before::BehindQualifier => outside_step(true, false, kind, is_attribute),
    }
}

/// Whether behind any `*`, attributes, qualifiers and `(` stands the name of a declarator, or the tokens end.
#[tactic(auto, unfolding(grammar_laws::specs::ParserTests::names_declarator))]
fn names_declarator(names: &TypedefNames, tokens: &[Terminal]) -> bool
    ensures { result ≡ spec.names_declarator (before.AtStart names.now.reading.typed) names.now tokens.now }
{
    let mut rest = tokens;
    let mut before = Before::AtStart(names.is_typed());
    while let Some((first, more)) = split(rest) {
        match declarator_step(before, first.kind, sees_attribute(rest)) {
            Some(next) => before = next,
            None => return is_name(before, names, first),
        }
        rest = more;
    }
    true
}

/// Whether a parenthesis round an abstract declarator comes next.
fn sees_abstract(tokens: &[Terminal]) -> bool
    ensures { result ≡ spec.sees_abstract tokens.now }
{
    match tokens {
        [first, second] => {
            first.kind == kinds::OPEN_PARENTHESIS && opens_abstract(second.kind, true)
        }
        [first, second, third, ..] => {
            first.kind == kinds::OPEN_PARENTHESIS
                && opens_abstract(second.kind, third.kind != kinds::OPEN_BRACKET)
        }
        _ => false,
    }
}

/// Whether an abstract declarator begins with a token of this kind, where no attribute does.
fn opens_abstract(kind: u8, no_attribute: bool) -> bool
    ensures { result ≡ spec.opens_abstract kind no_attribute }
{
    kind == kinds::STAR
        || kind == kinds::OPEN_PARENTHESIS
        || kind == kinds::OPEN_BRACKET && no_attribute
}

/// Whether `,` comes next, with no token of this kind behind it.
fn sees_comma_without(kind: u8, tokens: &[Terminal]) -> bool
    ensures { result ≡ spec.sees_comma_without kind tokens.now }
{
    match split(tokens) {
        Some((first, rest)) => first.kind == kinds::COMMA && !sees(kind, rest),
        None => false,
    }
}

/// Whether `,` and an enumerator come next.
fn sees_enumerator(names: &TypedefNames, tokens: &[Terminal]) -> bool
    ensures { result ≡ spec.sees_enumerator names.now tokens.now }
{
    match split(tokens) {
        Some((first, rest)) => first.kind == kinds::COMMA && sees_name(names, rest),
        None => false,
    }
}

/// Whether an assertion comes next.
fn sees_assertion(tokens: &[Terminal]) -> bool
    ensures { result ≡ spec.sees_assertion tokens.now }
{
    sees(kinds::STATIC_ASSERT, tokens) || sees(kinds::OLD_STATIC_ASSERT, tokens)
}

/// Whether attributes with nothing but `;` behind them come next.
fn sees_attributes_alone(tokens: &[Terminal]) -> bool
    ensures { result ≡ spec.sees_attributes_alone tokens.now }
{
    sees_attribute(tokens) && sees(kinds::SEMICOLON, past_attributes(tokens))
}

/// Whether a specifier stands behind the attributes that come next, if any.
fn specifies(names: &TypedefNames, tokens: &[Terminal]) -> bool
    ensures { result ≡ spec.specifies names.now tokens.now }
{
    may_come(Rule::Specs, names, past_attributes(tokens))
}

/// Whether `case` or `default` comes next.
fn sees_label(tokens: &[Terminal]) -> bool
    ensures { result ≡ spec.sees_label tokens.now }
{
    sees(kinds::CASE, tokens) || sees(kinds::DEFAULT, tokens)
}

/// Whether a type name begins with the token, where no type specifier precedes it.
fn begins_type(names: &TypedefNames, token: Terminal) -> bool
    ensures { result ≡ spec.begins_type names.now token }
{
    may_begin(Rule::Squals, names.fresh_kind(token))
}

/// Whether `(` and the first token of a type name come next.
fn sees_type_name(names: &TypedefNames, tokens: &[Terminal]) -> bool
    ensures { result ≡ spec.sees_type_name names.now tokens.now }
{
    match tokens {
        [first, second, ..] => {
            first.kind == kinds::OPEN_PARENTHESIS && begins_type(names, *second)
        }
        _ => false,
    }
}

/// Whether a type name in parentheses comes next, and no `{` behind it.
fn sees_cast(names: &TypedefNames, tokens: &[Terminal]) -> bool
    ensures { result ≡ spec.sees_cast names.now tokens.now }
{
    sees_type_name(names, tokens) && !sees(kinds::OPEN_BRACE, past_brackets(tokens))
}

/// How many brackets are open behind a token.
fn depth_behind(depth: usize, kind: u8) -> usize
    requires { depth < 2 ^ 63 }
    ensures depth { result ≡ spec.depth_behind depth kind }
    ensures grown { result ≤ depth + 1 }
{
    if is_opening(kind) {
        depth + 1
    } else if is_closing(kind) {
        depth.saturating_sub(1)
    } else {
        depth
    }
}

/// The place in an attribute behind `struct` or `enum`.
fn in_attribute(is_struct: bool, depth: usize) -> Within
    ensures place { result ≡ spec.in_attribute is_struct depth }
    ensures same { spec.within result ≡ depth }
{
    if depth == 0 {
        Within::BehindHead(is_struct)
    } else {
        Within::Attribute(is_struct, depth)
    }
}

/// The place in brackets.
fn in_group(depth: usize) -> Within
    ensures place { result ≡ spec.in_group depth }
    ensures same { spec.within result ≡ depth }
{
    if depth == 0 {
        Within::Between(true)
    } else {
        Within::Group(depth)
    }
}

/// Whether the word is a type specifier by itself.
fn is_type_word(kind: u8) -> bool
    ensures { result ≡ spec.is_type_word kind }
{
    is_one(TYPE_WORDS, kind)
}

/// What is behind a word of a specifier.
fn behind_word(typed: bool, kind: u8) -> Within
    ensures place { result ≡ spec.behind_word typed kind }
    ensures none { spec.within result ≡ 0 }
{
    if kind == kinds::STRUCT {
        Within::BehindHead(true)
    } else if kind == kinds::ENUM {
        Within::BehindHead(false)
    } else if kind == kinds::TYPEOF || kind == kinds::TYPEOF_UNQUAL {
        Within::BehindTypeof
    } else {
        Within::Between(typed || is_type_word(kind))
    }
}

/// What is behind `:`, `{` or a word that begins such a nonterminal.
fn behind_specifier(rule: Rule, typed: bool, kind: u8) -> Option<Within>
    ensures place { result ≡ spec.behind_specifier rule typed kind }
    ensures grown { IfSome result (λ next. spec.within next ≤ 1) }
{
    if kind == kinds::COLON {
        Some(Within::BehindColon)
    } else if kind == kinds::OPEN_BRACE {
        Some(Within::Group(1))
    } else if may_begin(rule, kind) {
        Some(behind_word(typed, kind))
    } else {
        None
    }
}

/// What is behind a tag.
fn behind_tag(is_struct: bool) -> Within
    ensures place { result ≡ spec.behind_tag is_struct }
    ensures none { spec.within result ≡ 0 }
{
    if is_struct {
        Within::BehindTag
    } else {
        Within::Between(true)
    }
}

/// What is behind a token that follows `struct` or `enum`.
fn head_step(rule: Rule, is_struct: bool, kind: u8) -> Option<Within>
    ensures place { result ≡ spec.head_step rule is_struct kind }
    ensures grown { IfSome result (λ next. spec.within next ≤ 1) }
{
    if kind == kinds::NAME {
        Some(behind_tag(is_struct))
    } else if kind == kinds::OPEN_BRACKET {
        Some(Within::Attribute(is_struct, 1))
    } else {
        behind_specifier(rule, true, kind)
    }
}

/// What is behind an identifier among specifiers.
fn name_step(typed: bool, names: &TypedefNames, token: Terminal) -> Option<Within>
    ensures place { result ≡ spec.name_step typed names.now token }
    ensures grown { IfSome result (λ next. spec.within next ≤ 1) }
{
    if typed || !names.names_type(token.name) {
        None
    } else {
        Some(Within::Between(true))
    }
}

/// What is behind a token between two specifiers.
fn between_step(rule: Rule, typed: bool, names: &TypedefNames, token: Terminal) -> Option<Within>
    ensures place { result ≡ spec.between_step rule typed names.now token }
    ensures grown { IfSome result (λ next. spec.within next ≤ 1) }
{
    if token.kind == kinds::NAME {
        name_step(typed, names, token)
    } else {
        behind_specifier(rule, typed, token.kind)
    }
}

/// What is behind a token in the type list of an enumeration, before its type specifiers.
fn colon_step(rule: Rule, names: &TypedefNames, token: Terminal) -> Option<Within>
    ensures place { result ≡ spec.colon_step rule names.now token }
    ensures grown { IfSome result (λ next. spec.within next ≤ 1) }
{
    if may_begin(Rule::Qual, token.kind) {
        Some(Within::BehindColon)
    } else if token.kind == kinds::NAME {
        name_step(false, names, token)
    } else {
        behind_specifier(rule, true, token.kind)
    }
}

/// What is behind a token that follows `typeof`.
fn typeof_step(kind: u8) -> Option<Within>
    ensures place { result ≡ spec.typeof_step kind }
    ensures grown { IfSome result (λ next. spec.within next ≤ 1) }
{
    if kind == kinds::OPEN_PARENTHESIS {
        Some(Within::Group(1))
    } else {
        None
    }
}

/// Where what is behind a token among the specifiers of such a nonterminal stands.
#[tactic(auto, unfolding(grammar_laws::specs::ParserTests::specifier_step))]
fn specifier_step(
    rule: Rule,
    place: Within,
    names: &TypedefNames,
    token: Terminal,
) -> Option<Within>
    requires { spec.within place < 2 ^ 63 }
    ensures place { result ≡ spec.specifier_step rule place names.now token }
    ensures grown { IfSome result (λ next. spec.within next ≤ spec.within place + 1) }
{
    match place {
        Within::Between(typed) => between_step(rule, typed, names, token),
        Within::BehindColon => colon_step(rule, names, token),
        Within::BehindHead(is_struct) => head_step(rule, is_struct, token.kind),
        Within::BehindTag => between_step(rule, true, names, token),
        Within::BehindTypeof => typeof_step(token.kind),
        Within::Attribute(is_struct, depth) => {
            Some(in_attribute(is_struct, depth_behind(depth, token.kind)))
        }
        Within::Group(depth) => Some(in_group(depth_behind(depth, token.kind))),
    }
}

/// What is behind the specifiers, where a type specifier may stand before them.
#[tactic(auto, unfolding(grammar_laws::specs::ParserTests::past_specifiers))]
fn past_specifiers<'a>(typed: bool, names: &TypedefNames, tokens: &'a [Terminal]) -> &'a [Terminal]
    ensures { result.now ≡ spec.past_specifiers (within.Between typed) names.now tokens.now }
{
    let mut rest = tokens;
    let mut place = Within::Between(typed);
    while let Some((first, more)) = split(rest) {
        match specifier_step(Rule::Specs, place, names, first) {
            Some(next) => place = next,
            None => return rest,
        }
        rest = more;
    }
    rest
}

/// Whether the token stands in a declarator, outside brackets.
fn is_in_declarator(kind: u8) -> bool
    ensures { result ≡ spec.is_in_declarator kind }
{
    kind == kinds::NAME || kind == kinds::STAR || may_begin(Rule::Qual, kind)
}

/// Whether the token ends a declarator of which so many brackets are open.
fn ends_declarator(depth: usize, kind: u8) -> bool
    ensures { result ≡ spec.ends_declarator depth kind }
{
    depth == 0
        && kind != kinds::OPEN_PARENTHESIS
        && kind != kinds::OPEN_BRACKET
        && !is_in_declarator(kind)
}

/// What is behind the declarator.
#[tactic(auto, unfolding(grammar_laws::specs::ParserTests::past_declarator))]
fn past_declarator(tokens: &[Terminal]) -> &[Terminal]
    ensures { result.now ≡ spec.past_declarator 0 tokens.now }
{
    let mut rest = tokens;
    let mut depth: usize = 0;
    while let Some((first, more)) = split(rest) {
        if ends_declarator(depth, first.kind) {
            return rest;
        }
        rest = more;
        if is_opening(first.kind) {
            depth += 1;
        } else if is_closing(first.kind) {
            depth = depth.saturating_sub(1);
        }
    }
    rest
}

/// Whether behind attributes, specifiers and a declarator stands `{`.
fn sees_function(names: &TypedefNames, tokens: &[Terminal]) -> bool
    ensures { result ≡ spec.sees_function names.now tokens.now }
{
    if !specifies(names, tokens) {
        return false;
    }
    let declarator = past_specifiers(names.is_typed(), names, past_attributes(tokens));
    sees(kinds::OPEN_BRACE, past_declarator(declarator))
}

/// Whether braces there are those of an enumeration whose type stands before them; a name may come next in them.
fn are_enumerators(place: Within, named: bool) -> bool
    ensures { result ≡ spec.are_enumerators place named }
{
    match place {
        Within::Between(_) | Within::BehindColon => true,
        Within::BehindTag => named,
        Within::BehindHead(_) | Within::BehindTypeof | Within::Attribute(_, _) | Within::Group(_) =>
            false,
    }
}

/// Whether the token is the `{` of an enumeration whose type stands before it.
fn opens_enumerators(
    place: Within,
    names: &TypedefNames,
    first: Terminal,
    rest: &[Terminal],
) -> bool
    ensures { result ≡ spec.opens_enumerators place names.now first rest.now }
{
    first.kind == kinds::OPEN_BRACE && are_enumerators(place, sees_name(names, rest))
}

/// Whether the token is the `:` of an enumeration without a tag.
fn awaits_braces(place: Within, token: Terminal) -> bool
    ensures { result ≡ spec.awaits_braces place token }
{
    match place {
        Within::BehindHead(_) => token.kind == kinds::COLON,
        Within::Between(_)
        | Within::BehindColon
        | Within::BehindTag
        | Within::BehindTypeof
        | Within::Attribute(_, _)
        | Within::Group(_) => false,
    }
}

/// How many enumerations wait for their braces behind a token.
fn waiting_behind(waiting: usize, takes: bool, awaits: bool) -> usize
    requires { waiting < 2 ^ 63 + 2 ^ 32 }
    ensures count { result ≡ spec.waiting_behind waiting takes awaits }
    ensures grown { result ≤ waiting + 1 }
{
    if takes {
        waiting.saturating_sub(1)
    } else if awaits {
        waiting + 1
    } else {
        waiting
    }
}

/// Whether in the list that goes on behind a type specifier braces come that no enumeration takes.
#[tactic(auto, unfolding(grammar_laws::specs::ParserTests::lacks_enumeration))]
fn lacks_enumeration(names: &TypedefNames, tokens: &[Terminal]) -> bool
    ensures { result ≡ spec.lacks_enumeration names.now.reading.waiting (within.Between true) names.now tokens.now }
{
    let mut rest = tokens;
    let mut place = Within::Between(true);
    let mut waiting = names.waiting();
    while let Some((first, more)) = split(rest) {
        let takes = opens_enumerators(place, names, first, more);
        if waiting == 0 && takes {
            return true;
        }
        let later = waiting_behind(waiting, takes, awaits_braces(place, first));
        match specifier_step(Rule::Squals, place, names, first) {
            Some(next) => place = next,
            None => return false,
        }
        waiting = later;
        rest = more;
    }
    false
}

/// Whether behind the tag of an enumeration come braces that no other takes.
fn takes_braces(names: &TypedefNames, tokens: &[Terminal]) -> bool
    ensures { result ≡ spec.takes_braces names.now tokens.now }
{
    (sees(kinds::OPEN_BRACE, tokens) || sees(kinds::COLON, tokens))
        && lacks_enumeration(names, tokens)
}

/// Whether braces come that are no enumeration's that waits for its own.
fn sees_members(names: &TypedefNames, tokens: &[Terminal]) -> bool
    ensures { result ≡ spec.sees_members names.now tokens.now }
{
    match split(tokens) {
        Some((first, rest)) => {
            first.kind == kinds::OPEN_BRACE && (names.waiting() == 0 || !sees_name(names, rest))
        }
        None => false,
    }
}

/// Whether enumerators come, or no tag.
fn has_enumerators(names: &TypedefNames, tokens: &[Terminal]) -> bool
    ensures { result ≡ spec.has_enumerators names.now tokens.now }
{
    match split(tokens) {
        Some((first, rest)) => first.kind != kinds::NAME || takes_braces(names, rest),
        None => true,
    }
}

/// Whether the test holds.
pub fn passes(test: Test, names: &TypedefNames, tokens: &[Terminal]) -> bool
    ensures { result ≡ spec.passes test names.now tokens.now }
{
    match test {
        Test::HasParameters => names.held().is_some(),
        Test::FunctionAhead => sees_function(names, tokens),
        Test::SpecifiersAhead => !(sees_assertion(tokens) || sees_attributes_alone(tokens)),
        Test::AttributeAhead => sees_attribute(tokens),
        Test::TypeAhead => sees_type(names, tokens),
        Test::BraceAhead => sees_members(names, tokens),
        Test::EnumeratorsAhead => has_enumerators(names, tokens),
        Test::EnumeratorAhead => sees_enumerator(names, tokens),
        Test::ParameterAhead => sees_comma_without(kinds::ELLIPSIS, tokens),
        Test::ItemAhead => sees_comma_without(kinds::CLOSE_BRACE, tokens),
        Test::DeclaratorAhead => names_declarator(names, tokens),
        Test::AbstractAhead => sees_abstract(tokens),
        Test::DeclarationAhead => {
            sees_assertion(tokens) || sees_attributes_alone(tokens) || specifies(names, tokens)
        }
        Test::LabelAhead => sees_label(past_attributes(tokens)),
        Test::CastAhead => sees_cast(names, tokens),
        Test::OperandAhead => !sees_cast(names, tokens),
        Test::ParenthesizedExpression => !sees_type_name(names, tokens),
        Test::ElseAhead => sees(kinds::ELSE, tokens),
    }
}

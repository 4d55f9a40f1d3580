//! What the productions make of their symbols.
ghost use Rattle.std.specs.Prelude.{◌≡◌, IfOk};
ghost use Rattle.model_grammar.specs.SyntaxActions as actions;
ghost use Rattle.model_grammar.specs.SyntaxActions.{node_value, unit_in};
ghost use Rattle.model_grammar.specs.SyntaxValues as v;
ghost use Rattle.syntax_meanings.specs.Meanings.{meaning_of, symbols_seen, value_seen, values_seen};
ghost use Rattle.syntax_actions.specs.Units.{unit_seen};

use crate::units;
use c_tree::{Tree, TreeForm};
use cake_base::NoMemory;
use model_grammar::grammar::Rule;
use model_types::marks::Span;
use sqlite_items::Items;
use std::alloc::Global;
use syntax_meanings::{Meaning, RightSide, Symbols, Value, right_side, span_or};

/// Attributes.
fn nothing<'t>(_symbols: Symbols<'t>) -> Result<Meaning<'t>, NoMemory>
    ensures { IfOk result (λ made. meaning_of made ≡ v.nothing) }
{
    Ok(Meaning::Nothing)
}

/// What a production makes of its symbols without attributes, whose tokens are `bare`; `all` are those of all symbols.
fn action<'t>(
    alloc: Global,
    rule: Rule,
    all: Span,
    bare: Span,
    symbols: Symbols<'t>,
) -> Result<Meaning<'t>, NoMemory>
    ensures { IfOk result (λ made. meaning_of made ≡ actions.action rule all bare (symbols_seen symbols.entry)) }
{
    match rule {
        Rule::Unit => units::unit_of_externals(alloc, symbols),
        Rule::External => Ok(units::external(symbols)),
        Rule::Function => units::function_definition(alloc, symbols),
        Rule::Declaration => declaration_actions::declaration(alloc, symbols),
        Rule::Sassert => declaration_actions::static_assertion(alloc, symbols),
        Rule::Attrs => nothing(symbols),
        Rule::Attr => nothing(symbols),
        Rule::Specs => declaration_actions::specs(alloc, symbols),
        Rule::Spec => Ok(declaration_actions::one_spec(symbols)),
        Rule::Storage => Ok(declaration_actions::storage_spec(symbols)),
        Rule::Typespec => declaration_actions::type_spec(alloc, symbols),
        Rule::Qual => Ok(declaration_actions::qualified(symbols)),
        Rule::Squals => declaration_actions::specs(alloc, symbols),
        Rule::Struct => declaration_actions::structure(alloc, symbols),
        Rule::Members => declaration_actions::members(alloc, symbols),
        Rule::Member => declaration_actions::member_declaration(alloc, symbols),
        Rule::Enum => declaration_actions::enumeration(alloc, symbols),
        Rule::Enumr => declaration_actions::enumerator(alloc, symbols),
        Rule::Declarator => declarator_actions::declarator(alloc, symbols),
        Rule::Direct => declarator_actions::direct(alloc, symbols),
        Rule::Suffix => declarator_actions::suffix(alloc, symbols),
        Rule::Params => declarator_actions::parameters(alloc, symbols),
        Rule::Param => declarator_actions::parameter(alloc, all.first, symbols),
        Rule::Typename => declarator_actions::type_name(alloc, symbols),
        Rule::Abstract => declarator_actions::declarator(alloc, symbols),
        Rule::Adirect => declarator_actions::direct(alloc, symbols),
        Rule::Initdecl => declaration_actions::init_declarator(alloc, symbols),
        Rule::Init => declarator_actions::initializer(alloc, symbols),
        Rule::Braces => declarator_actions::braces(alloc, symbols),
        Rule::Item => declarator_actions::item(alloc, symbols),
        Rule::Desig => declarator_actions::designator(alloc, symbols),
        Rule::Block => statement_actions::block(alloc, bare, symbols),
        Rule::Label => Ok(statement_actions::label(symbols)),
        Rule::Statement => statement_actions::statement(alloc, bare, symbols),
        Rule::Expr => expression_actions::chained(alloc, symbols),
        Rule::Assign => expression_actions::assigned(alloc, symbols),
        Rule::Cond => expression_actions::conditional(alloc, symbols),
        Rule::Oror => expression_actions::chained(alloc, symbols),
        Rule::Andand => expression_actions::chained(alloc, symbols),
        Rule::Bor => expression_actions::chained(alloc, symbols),
        Rule::Bxor => expression_actions::chained(alloc, symbols),
        Rule::Band => expression_actions::chained(alloc, symbols),
        Rule::Equal => expression_actions::chained(alloc, symbols),
        Rule::Rel => expression_actions::chained(alloc, symbols),
        Rule::Shift => expression_actions::chained(alloc, symbols),
        Rule::Sum => expression_actions::chained(alloc, symbols),
        Rule::Product => expression_actions::chained(alloc, symbols),
        Rule::Cast => expression_actions::cast(alloc, symbols),
        Rule::Unary => expression_actions::unary(alloc, symbols),
        Rule::Postfix => expression_actions::postfixed(alloc, symbols),
        Rule::Primary => expression_actions::primary(alloc, symbols),
        Rule::Literal => expression_actions::literal(alloc, symbols),
        Rule::Balanced => nothing(symbols),
        Rule::Declared => Ok(units::alone(symbols)),
        Rule::ParamSpecs => Ok(units::alone(symbols)),
        Rule::Body => Ok(units::alone(symbols)),
        Rule::Typeof => Ok(declaration_actions::type_of_operand(symbols)),
        Rule::If => statement_actions::if_statement(alloc, bare, symbols),
        Rule::For => statement_actions::for_statement(alloc, bare, symbols),
    }
}

/// What a production makes of the symbols of its right side (ISO/IEC 9899:2024, annex A.3).
///
/// Symbols that no production of the nonterminal has make nothing.
pub fn node<'t>(alloc: Global, rule: Rule, symbols: Items<Value<'t>>) -> Result<Value<'t>, NoMemory>
    ensures { IfOk result (λ made. value_seen made ≡ node_value rule (values_seen symbols.entry)) }
{
    let RightSide { symbols, all, bare } = right_side(alloc, symbols)?;
    let meaning = action(alloc, rule, span_or(all), span_or(bare), symbols)?;
    Ok(Value {
        meaning,
        tokens: all,
    })
}

/// The unit that a value is (6.9), if it is one.
pub fn unit(alloc: Global, value: Value<'_>) -> Result<Option<Tree>, NoMemory>
    ensures { IfOk result (λ made. unit_seen made ≡ unit_in (value_seen value.entry).meaning) }
{
    let Value { meaning, .. } = value;
    match meaning {
        Meaning::Unit(externals) => {
            let tree = Tree::new(alloc, TreeForm { externals })?;
            Ok(Some(tree))
        }
        other => {
            drop(other);
            Ok(None)
        }
    }
}

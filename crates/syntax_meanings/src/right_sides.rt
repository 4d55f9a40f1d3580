//! The right side of a production, read from its end.
ghost use Rattle.std.specs.Prelude.{◌≡◌, ◌∷◌, List, IfOk};
ghost use Rattle.model_grammar.specs.SyntaxValues as v;
ghost use Rattle.syntax_meanings.specs.Meanings.{value_seen, values_seen};
ghost use Rattle.syntax_meanings.specs.RightSides.{IsRightSide};

use crate::meanings::{Meaning, Value};
use crate::symbols::Symbols;
use cake_base::{NoMemory, Place};
use model_types::marks::Span;
use sqlite_items::Items;
use std::alloc::Global;

/// The symbols of a right side without attributes, with the tokens of all symbols and those of these.
#[derive(Drop)]
pub struct RightSide<'t> {
    pub symbols: Symbols<'t>,
    pub all: Option<Span>,
    pub bare: Option<Span>,
}

/// One span and then another.
fn joined(span: Option<Span>, later: Option<Span>) -> Option<Span>
    ensures { result ≡ v.joined span later }
{
    match (span, later) {
        (None, later) => later,
        (Some(span), None) => Some(span),
        (Some(span), Some(later)) => Some(Span {
            first: span.first,
            last: later.last,
        }),
    }
}

/// The span; that of no place where there is none.
pub fn span_or(span: Option<Span>) -> Span
    ensures { result ≡ v.span_or span }
{
    let nowhere = Place {
        file: 0,
        line: 0,
        column: 0,
        order: 0,
    };
    match span {
        Some(span) => span,
        None => Span {
            first: nowhere,
            last: nowhere,
        },
    }
}

/// The right side with one value before the others.
fn with_value<'t>(right: RightSide<'t>, value: Value<'t>) -> Result<RightSide<'t>, NoMemory>
    ensures { IfOk result (λ made. (others : List v.Value) → IsRightSide right.entry others → IsRightSide made (value_seen value.entry ∷ others)) }
{
    let RightSide {
        mut symbols,
        all,
        bare,
    } = right;
    let Value { meaning, tokens } = value;
    let all = joined(tokens, all);
    match meaning {
        Meaning::Nothing => Ok(RightSide { symbols, all, bare }),
        meaning => {
            symbols.put(meaning)?;
            Ok(RightSide {
                symbols,
                all,
                bare: joined(tokens, bare),
            })
        }
    }
}

/// The right side of these values.
pub fn right_side<'t>(alloc: Global, values: Items<Value<'t>>) -> Result<RightSide<'t>, NoMemory>
    ensures { IfOk result (λ made. IsRightSide made (values_seen values.entry)) }
{
    let mut values = values;
    let mut right = RightSide {
        symbols: Symbols::new(alloc),
        all: None,
        bare: None,
    };
    while let Some(value) = values.pop() {
        right = with_value(right, value)?;
    }
    Ok(right)
}

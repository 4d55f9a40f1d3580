//! Blocks and labels (ISO/IEC 9899:2024, 6.8.2, 6.8.3).
ghost use Rattle.std.specs.Prelude.{◌≡◌, IfOk};
ghost use Rattle.model_grammar.specs.SyntaxStatementActions as s;
ghost use Rattle.c_tree.specs.SyntaxViews.{block_items_of};
ghost use Rattle.syntax_meanings.specs.Meanings.{meaning_of, symbols_seen};

use c_tree::{Block, BlockItem};
use cake_base::NoMemory;
use model_types::marks::Span;
use sqlite_items::Items;
use std::alloc::Global;
use syntax_meanings::{Meaning, Symbols};

/// A block, with its braces.
pub fn block<'t>(alloc: Global, span: Span, symbols: Symbols<'t>) -> Result<Meaning<'t>, NoMemory>
    ensures { IfOk result (λ made. meaning_of made ≡ s.block span (symbols_seen symbols.entry)) }
{
    let items = block_items_in(alloc, symbols)?;
    Ok(Meaning::Block(Block { items, span }))
}

/// The declarations, labels and statements among the symbols.
#[tactic(auto, using(crate::proofs::BlockItemLists::one_more_block_item, crate::proofs::BlockItemLists::no_more_block_items))]
fn block_items_in(alloc: Global, symbols: Symbols<'_>) -> Result<Items<BlockItem>, NoMemory>
    ensures { IfOk result (λ items. block_items_of items ≡ s.block_items_in (symbols_seen symbols.entry)) }
{
    let mut symbols = symbols;
    let mut items = Items::new(alloc);
    while let Some(symbol) = symbols.next() {
        match symbol {
            Meaning::Declaration(declaration) => items.push(BlockItem::Declaration(declaration))?,
            Meaning::Statement(statement) => items.push(BlockItem::Statement(statement))?,
            Meaning::BlockItem(label) => items.push(label)?,
            other => drop(other),
        }
    }
    Ok(items)
}

/// A label, which is `case` with its value, or `default`.
#[tactic(auto, using(crate::proofs::Refusals::of_label))]
pub fn label<'t>(symbols: Symbols<'t>) -> Meaning<'t>
    ensures { meaning_of result ≡ s.label (symbols_seen symbols.entry) }
{
    let mut symbols = symbols;
    let Some(word) = symbols.token() else {
        return Meaning::Nothing;
    };
    let place = word.token.place;
    if let Some(value) = symbols.expr() {
        let Some(_) = symbols.token() else {
            return Meaning::Nothing;
        };
        if !symbols.is_empty() {
            return Meaning::Nothing;
        }
        return Meaning::BlockItem(BlockItem::Case { value, place });
    }
    let Some(_) = symbols.token() else {
        return Meaning::Nothing;
    };
    if !symbols.is_empty() {
        return Meaning::Nothing;
    }
    Meaning::BlockItem(BlockItem::Default(place))
}

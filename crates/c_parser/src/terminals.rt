//! The tokens of C as the grammar sees them.

ghost use Rattle.std.specs.Prelude.{◌≡◌, IfOk};
ghost use Rattle.model_grammar.specs.TerminalsOf as spec;
ghost use Rattle.c_parser.specs.Ranks.{number_behind, with_kind};

use crate::ranks::Ranks;
use c_tokens::{CKind, CList, CTok};
use cake_base::NoMemory;
use model_grammar::grammar::Terminal;
use sqlite_items::Items;
use std::alloc::Global;
use syntax_meanings::kind_number;

/// The number of an identifier, which is the rank of the first token of its spelling, and 0 for another token.
fn name_number<'a>(ranks: &mut Ranks<'a>, kind: &'a CKind, rank: usize) -> Result<u32, NoMemory>
    ensures number { IfOk result (λ n. n ≡ number_behind ranks.old rank kind.now) }
    ensures kept { IfOk result (λ n. ranks.new ≡ with_kind ranks.old rank kind.now) }
{
    match kind {
        CKind::Name(spelling) => match u32::try_from(rank) {
            Ok(rank) => ranks.first(spelling.as_slice(), rank),
            Err(_) => Err(NoMemory),
        },
        CKind::Word(_) | CKind::Integer(_) | CKind::Text(_) | CKind::Punct(_) => Ok(0),
    }
}

/// The token of this rank as the grammar sees it, behind tokens with these spellings.
fn terminal<'a>(ranks: &mut Ranks<'a>, token: &'a CTok, rank: usize) -> Result<Terminal, NoMemory>
    ensures terminal { IfOk result (λ t. t ≡ record { kind = spec.kind_number token.now.kind; name = number_behind ranks.old rank token.now.kind; rank = rank }) }
    ensures kept { IfOk result (λ t. ranks.new ≡ with_kind ranks.old rank token.now.kind) }
{
    let Some(kind) = kind_number(&token.kind) else {
        return Err(NoMemory);
    };
    let name = name_number(ranks, &token.kind, rank)?;
    Ok(Terminal { kind, name, rank })
}

/// The tokens as the grammar sees them.
///
/// Numbers are wanting, which is answered as the want of memory is, for a word or a punctuator whose number is past
/// those of the vocabulary, and for an identifier behind 4,294,967,296 tokens.
pub fn terminals(alloc: Global, toks: &CList) -> Result<Items<Terminal>, NoMemory>
    ensures { IfOk result (λ ts. ts ≡ spec.terminals_of toks.now) }
{
    let mut ranks = Ranks::new(alloc);
    let mut terminals = Items::new(alloc);
    while let Some(token) = toks.get(terminals.len()) {
        let next = terminal(&mut ranks, token, terminals.len())?;
        terminals.push(next)?;
    }
    Ok(terminals)
}

//! The parsing of a translation unit, given as the tokens that the grammar sees.

ghost use Rattle.c_parser.specs.Parsing.{Parsed, UnitRead};

use crate::forms::Form;
use crate::heights::{Context, Heights};
use crate::reader::{Reader, Stop, read};
use crate::typedef_names::TypedefNames;
use c_tokens::CList;
use model_grammar::grammar::{Rule, Terminal};
use sqlite_items::Items;
use std::alloc::Global;
use syntax_meanings::Value;

/// Why there is no tree.
#[derive(Clone, Copy, Debug, PartialEq, Eq)]
pub enum UnitRefusal {
    /// There is no memory.
    Memory,
    /// M06: the token of this rank is the first that lies in more than 1,000 parts, or just before which a part ended that
    /// is more than 1,000 high; it stands before the first fault.
    Deep(usize),
    /// S01: the token of this rank is the first with which no translation unit can go on; the number of tokens, where they
    /// are the front of a unit and no unit.
    Fault(usize),
}

const UNIT: &Form = &Form::Rule(Rule::Unit);

/// What is built of a translation unit, or why it is refused.
fn read_unit<'t>(
    alloc: Global,
    toks: &'t CList,
    tokens: &[Terminal],
    builds: bool,
) -> Result<Items<Value<'t>>, UnitRefusal>
    ensures { UnitRead toks.now tokens.now builds result }
{
    let mut reader = Reader {
        rest: tokens,
        names: TypedefNames::new(alloc),
        heights: Heights::none(),
    };
    let mut values = Items::new(alloc);
    match read(
        alloc,
        toks,
        &mut reader,
        UNIT,
        Context::outermost(builds),
        &mut values,
    ) {
        Ok(()) => {
            if !reader.rest.is_empty() {
                return Err(UnitRefusal::Fault(tokens.len() - reader.rest.len()));
            }
            Ok(values)
        }
        Err(Stop::Fault) => Err(UnitRefusal::Fault(tokens.len() - reader.rest.len())),
        Err(Stop::Memory) => Err(UnitRefusal::Memory),
        Err(Stop::Deep) => Err(UnitRefusal::Deep(tokens.len() - reader.rest.len())),
    }
}

/// What the tree of a translation unit (ISO/IEC 9899:2024, 6.9) stands for, or why there is none.
///
/// `tokens` are those of `toks` as the grammar sees them.
///
/// The tree is that of the grammar's preferred derivation. The tokens before a fault begin a unit by the grammar, and no
/// longer front does. Parts are those of the preferred derivation, and where there is none those of the walk to the fault.
pub fn parse_terminals<'t>(
    alloc: Global,
    toks: &'t CList,
    tokens: &[Terminal],
) -> Result<Value<'t>, UnitRefusal>
    ensures { Parsed toks.now tokens.now result }
{
    // Nothing is built of a unit that is refused: what a chain of any length stands for is too deep to be dropped.
    read_unit(alloc, toks, tokens, false)?;
    let mut values = read_unit(alloc, toks, tokens, true)?;
    match values.pop() {
        Some(value) => Ok(value),
        None => unreachable!(),
    }
}

//! The arguments of a macro call.
ghost use Rattle.std.specs.Prelude.{◌≡◌, ◌++◌, [], ◌∷◌, ◌+◌, ◌<◌, ◌≤◌, ◌&&◌, ◌==◌, nat_lt, if◌then◌else◌, length, map, IfOk, MatchOption, Some, None};
ghost use Rattle.model_macros.specs.MacroArguments as spec;
ghost use Rattle.model_macros.specs.MacroDefinitions as definitions;
ghost use Rattle.model_macros.specs.Macros as macros;
ghost use Rattle.model_macros.specs.ReplacementLists as lists;

use crate::hides::Painted;
use cake_base::{NoMemory, Place};
use pp_definitions::{MacroDef, Names, Row, Stack, deeper, spells};
use std::alloc::Global;

/// Whether a parenthesis stands at the front.
pub fn opens(pending: &Stack<Painted>) -> bool
    ensures { result ≡ spec.opens pending.now }
{
    match pending.first() {
        Some(p) => spells(&p.tok, b"("),
        None => false,
    }
}

/// Whether the token is the parenthesis that closes a call.
fn closes(p: &Painted, depth: usize) -> bool
    ensures { result ≡ (macros.spells lists.RIGHT p.now.tok && (depth == 0)) }
{
    spells(&p.tok, b")") && depth == 0
}

#[tactic(auto, using(crate::proofs::ArgumentLaws::splits))]
/// Takes the tokens up to the parenthesis that closes the call, and that one. The tokens then stand
/// at that place.
pub fn inside(
    alloc: Global,
    place: Place,
    pending: &mut Stack<Painted>,
) -> Result<Option<(Row<Painted>, Painted)>, NoMemory>
    ensures { IfOk result (λ o. MatchOption o (spec.placed place (spec.inside 0 pending.old) ≡ None)
        (λ r. spec.placed place (spec.inside 0 pending.old) ≡ Some (record { tokens = r.0; close = r.1; rest = pending.new }))) }
{
    let mut row = Row::new(alloc);
    let mut depth: usize = 0;
    while let Some(p) = pending.pop() {
        if closes(&p, depth) {
            return Ok(Some((row, p)));
        }
        let _ = row.len();
        depth = deeper(depth, &p.tok);
        row.push(at_place(place, p))?;
    }
    Ok(None)
}

/// The token at another place.
fn at_place(place: Place, p: Painted) -> Painted
    ensures { result ≡ spec.at_place place p }
{
    let Painted { mut tok, hides } = p;
    tok.place = place;
    Painted { tok, hides }
}

/// Whether the token ends an argument.
fn parts_at(p: &Painted, depth: usize, commas: usize) -> bool
    ensures { result ≡ (macros.spells definitions.COMMA p.now.tok && (depth == 0) && nat_lt 0 commas) }
{
    spells(&p.tok, b",") && depth == 0 && 0 < commas
}

#[tactic(auto, using(crate::proofs::ArgumentLaws::splits))]
/// What the first commas outside of inner parentheses part, at most that many.
fn parts(alloc: Global, commas: usize, row: Row<Painted>) -> Result<Row<Row<Painted>>, NoMemory>
    ensures { IfOk result (λ r. r ≡ spec.parts commas 0 row) }
{
    let mut remaining = commas;
    let mut rest = Stack::new(row);
    let mut done = Row::new(alloc);
    let mut part = Row::new(alloc);
    let mut depth: usize = 0;
    while let Some(p) = rest.pop() {
        if parts_at(&p, depth, remaining) {
            done.push(part)?;
            part = Row::new(alloc);
            remaining -= 1;
            continue;
        }
        let _ = part.len();
        depth = deeper(depth, &p.tok);
        part.push(p)?;
    }
    done.push(part)?;
    Ok(done)
}

/// The number of parameters.
pub fn count_of(params: &Option<Names>) -> usize
    ensures { result ≡ length (definitions.names_of params.now) }
{
    match params {
        Some(names) => names.len(),
        None => 0,
    }
}

/// As many arguments as parameters.
fn exact(
    alloc: Global,
    names: usize,
    run: Row<Painted>,
) -> Result<Option<Row<Row<Painted>>>, NoMemory>
    ensures { IfOk result (λ o. o ≡ spec.exact_arguments names run) }
{
    if names == 0 {
        return Ok(none_of(alloc, &run));
    }
    let rows = parts(alloc, run.len(), run)?;
    Ok(if rows.len() == names {
        Some(rows)
    } else {
        None
    })
}

/// No arguments, if there are no tokens.
fn none_of(alloc: Global, run: &Row<Painted>) -> Option<Row<Row<Painted>>>
    ensures { result ≡ (if spec.is_nil run.now then Some [] else None) }
{
    if run.is_empty() {
        Some(Row::new(alloc))
    } else {
        None
    }
}

/// At least as many arguments as parameters, the variable ones as one.
fn variable(
    alloc: Global,
    names: usize,
    run: Row<Painted>,
) -> Result<Option<Row<Row<Painted>>>, NoMemory>
    ensures { IfOk result (λ o. o ≡ spec.variable_arguments names run) }
{
    let mut rows = parts(alloc, names, run)?;
    let count = rows.len();
    if count == names {
        rows.push(Row::new(alloc))?;
        return Ok(Some(rows));
    }
    Ok(if names < count { Some(rows) } else { None })
}

/// The arguments of a call, the variable ones last, if their number is right.
pub fn split(
    alloc: Global,
    def: &MacroDef,
    run: Row<Painted>,
) -> Result<Option<Row<Row<Painted>>>, NoMemory>
    ensures { IfOk result (λ o. o ≡ spec.arguments def.now run) }
{
    let names = count_of(def.params());
    if def.is_variadic() {
        variable(alloc, names, run)
    } else {
        exact(alloc, names, run)
    }
}

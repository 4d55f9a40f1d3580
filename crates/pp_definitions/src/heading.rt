//! The head of a definition: the name of a macro, and its parameters.
ghost use Rattle.std.specs.Prelude.{◌≡◌, [], ◌∷◌, ◌<◌, ◌≤◌, length, drop, slice_get, IfOk, IfSome, MatchOption, Some, None, false};
ghost use Rattle.model_macros.specs.MacroDefinitions as definitions;
ghost use Rattle.model_macros.specs.declared.macros.Expected.TheVariants as expected;
ghost use Rattle.pp_definitions.specs.Definitions.{Meets, after_names};

use crate::names::Names;
use crate::spelling::{is_name, spells};
use c_tokens::{PpList, PpTok};
use cake_base::{Bytes, NoMemory};
use model_macros::macros::Expected;
use std::alloc::Global;
use std::marker::Model;

/// The name of a macro, the names of its parameters where it is like a function, and whether it
/// takes variable arguments.
#[derive(Drop)]
pub struct Heading {
    pub name: Bytes,
    pub params: Option<Names>,
    pub variadic: bool,
}

impl Model for Heading {
    ghost use Rattle.model_macros.specs.MacroDefinitions as definitions;

    ghost Value = { definitions.Heading };

    ghost view = { λ h. record { name = h.name; params = h.params; variadic = h.variadic } };
}

/// The parameters of a macro, and the rank of the token after them.
#[derive(Drop)]
pub struct Parameters {
    pub names: Names,
    pub variadic: bool,
    pub next: usize,
}

/// What a token is among parameters.
#[derive(Drop)]
pub enum Met {
    /// A parameter.
    Name,
    /// A comma or an ellipsis.
    Onward(Expected),
    /// The end; whether an ellipsis stood before it.
    End(bool),
    /// Nothing that may stand here.
    Wrong,
}

/// What the token is, where that is expected.
fn meaning(expected: Expected, tok: &PpTok) -> Met
    ensures { Meets expected tok.now result }
{
    match expected {
        Expected::First if spells(tok, b")") => Met::End(false),
        Expected::First | Expected::Item => item(tok),
        Expected::Next if spells(tok, b")") => Met::End(false),
        Expected::Next if spells(tok, b",") => Met::Onward(Expected::Item),
        Expected::Next => Met::Wrong,
        Expected::End if spells(tok, b")") => Met::End(true),
        Expected::End => Met::Wrong,
    }
}

/// What the token is, where a parameter or an ellipsis is expected.
fn item(tok: &PpTok) -> Met
    ensures { Meets expected.Item tok.now result }
{
    if spells(tok, b"...") {
        Met::Onward(Expected::End)
    } else if is_name(tok) {
        Met::Name
    } else {
        Met::Wrong
    }
}

/// The parameters that begin at that rank of the line, after an opening parenthesis. `None` where
/// they are malformed, or one stands twice.
fn read_parameters(
    alloc: Global,
    line: &PpList,
    from: usize,
) -> Result<Option<Parameters>, NoMemory>
    ensures { IfOk result (λ o. MatchOption o (after_names [] (definitions.parameters expected.First (drop from line.now)) ≡ None)
        (λ p. after_names [] (definitions.parameters expected.First (drop from line.now)) ≡ Some (record { names = p.names; variadic = p.variadic; rest = drop p.next line.now }))) }
{
    let mut names = Names::new(alloc);
    let mut expected = Expected::First;
    for at in from..line.count() {
        let Some(tok) = line.get(at) else {
            return Ok(None);
        };
        match meaning(expected, tok) {
            Met::Name => {
                if !names.add(alloc, tok.spelling())? {
                    return Ok(None);
                }
                expected = Expected::Next;
            }
            Met::Onward(next) => expected = next,
            Met::End(variadic) => {
                return Ok(Some(Parameters {
                    names,
                    variadic,
                    next: at + 1,
                }));
            }
            Met::Wrong => return Ok(None),
        }
    }
    Ok(None)
}

/// The heading of a line after `#define`, and the rank of its first token after it. `None` where the
/// line is malformed (ISO/IEC 9899:2024, 6.10.5).
pub fn read_heading(alloc: Global, line: &PpList) -> Result<Option<(Heading, usize)>, NoMemory>
    ensures { IfOk result (λ o. MatchOption o (definitions.line_parts line.now ≡ None)
        (λ r. definitions.line_parts line.now ≡ Some (record { heading = r.0; body = drop r.1 line.now }))) }
{
    let Some(first) = line.get(0) else {
        return Ok(None);
    };
    if !is_name(first) {
        return Ok(None);
    }
    let name = Bytes::of(alloc, first.spelling())?;
    let Some(next) = line.get(1) else {
        return Ok(Some((object(name), 1)));
    };
    if next.space {
        return Ok(Some((object(name), 1)));
    }
    if !spells(next, b"(") {
        return Ok(None);
    }
    let Some(read) = read_parameters(alloc, line, 2)? else {
        return Ok(None);
    };
    let heading = Heading {
        name,
        params: Some(read.names),
        variadic: read.variadic,
    };
    Ok(Some((heading, read.next)))
}

/// The heading of a macro without parameters.
pub fn object(name: Bytes) -> Heading
    ensures { result ≡ record { name = name; params = None; variadic = false } }
{
    Heading {
        name,
        params: None,
        variadic: false,
    }
}

//! A unit in short: a script of steps with what each answers. The nth step stands at line n.
ghost use Rattle.std.specs.Prelude.{ℕ, None, IsTrue};
ghost use Rattle.model_types.specs.Types.{form_of_type};
ghost use Rattle.model_types.specs.Structures.{names_below};
ghost use Rattle.model_scopes.specs.Declarations as d;
ghost use Rattle.model_scopes.specs.Scopes as m;

use crate::declaring::{
    add_struct, at, declare_enumerator, declare_struct, declare_typed, is_function, word,
};
use crate::typed::type_of;
use c_types::{CType, TypeForm};
use cake_base::{Fault, NoMemory};
use decl_scope::{DeclId, Kind, ScopeError, Scopes};
use std::alloc::Global;
use std::test::Fail;

/// Appends the rule of the family C and the line of a fault.
fn write_fault(alloc: Global, fault: Fault, out: &mut String) -> Result<(), Fail> {
    let (rule, line) = (fault.rule.number, fault.place.line);
    out.push_str(format!(in alloc; " C0{rule}:{line}")?.as_str())?;
    Ok(())
}

/// Appends the id of a declaration, or its fault.
fn write_answer(
    alloc: Global,
    answer: Result<DeclId, ScopeError>,
    out: &mut String,
) -> Result<(), Fail> {
    match answer {
        Ok(id) => write_id(alloc, Some(id), out),
        Err(ScopeError::Fault(fault)) => write_fault(alloc, fault, out),
        Err(ScopeError::NoMemory) => Err(Fail::from("no memory")),
    }
}

fn write_id(alloc: Global, id: Option<DeclId>, out: &mut String) -> Result<(), Fail> {
    match id {
        Some(id) => out.push_str(format!(in alloc; " {}", id.0)?.as_str())?,
        None => out.push_str(" -")?,
    }
    Ok(())
}

/// `length NAME`: the length of an array, and the line of its latest declaration, seen in a copy of it.
fn write_length(alloc: Global, scopes: &Scopes, name: &str, out: &mut String) -> Result<(), Fail> {
    if let Some(id) = scopes.look(false, name.as_bytes()) {
        let entry = scopes.entry(id).copy(alloc)?;
        let line = entry.place.line;
        match entry.ty.form() {
            TypeForm::Array(_, Some(length)) => {
                out.push_str(format!(in alloc; " [{length}]:{line}")?.as_str())?;
            }
            _ => out.push_str(format!(in alloc; " []:{line}")?.as_str())?,
        }
    }
    Ok(())
}

/// `facts NAME`: whether it stands outside of the innermost function literal, is defined, and is noted to have its
/// initializer or body, and the line that counts where units are joined.
fn write_facts(alloc: Global, scopes: &Scopes, name: &str, out: &mut String) -> Result<(), Fail> {
    if let Some(id) = scopes.look(false, name.as_bytes()) {
        let surrounding = if scopes.is_surrounding(id) {
            " out"
        } else {
            " in"
        };
        let defined = if scopes.is_defined(id) { "+" } else { "" };
        let initialized = if scopes.is_initialized(id) { "=" } else { "" };
        let line = scopes.joint_place(id).line;
        let facts = format!(in alloc; "{surrounding}{defined}{initialized}:{line}")?;
        out.push_str(facts.as_str())?;
    }
    Ok(())
}

/// `all`: the id and the line of each declaration, in the order of the first ones.
fn write_all(alloc: Global, scopes: &Scopes, out: &mut String) -> Result<(), Fail> {
    for rank in 0..scopes.declared_count() {
        if let Some((id, entry)) = scopes.declared(rank) {
            let line = entry.place.line;
            out.push_str(format!(in alloc; " {}:{line}", id.0)?.as_str())?;
        }
    }
    Ok(())
}

/// A step that asks for an id: `tagged NAME`, `here NAME` or `look NAME`.
fn ask_id(scopes: &Scopes, step: &str, name: &str) -> Option<DeclId> {
    if step == "tagged" {
        return scopes.look(true, name.as_bytes());
    }
    if step == "here" {
        return scopes.here(false, name.as_bytes());
    }
    scopes.look(false, name.as_bytes())
}

fn write_unresolved(alloc: Global, scopes: &Scopes, out: &mut String) -> Result<(), Fail> {
    match scopes.unresolved() {
        Some(fault) => write_fault(alloc, fault, out),
        None => write_id(alloc, None, out),
    }
}

/// A step that asks, and changes nothing.
fn ask(alloc: Global, scopes: &Scopes, words: &[&str], out: &mut String) -> Result<(), Fail> {
    let (step, name) = (word(words, 0), word(words, 1));
    if step == "length" {
        return write_length(alloc, scopes, name, out);
    }
    if step == "facts" {
        return write_facts(alloc, scopes, name, out);
    }
    if step == "all" {
        return write_all(alloc, scopes, out);
    }
    if step == "unresolved" {
        return write_unresolved(alloc, scopes, out);
    }
    write_id(alloc, ask_id(scopes, step, name), out)
}

/// Whether a declaration of that kind may have that type, and no value.
fn may_have(kind: Kind, ty: &CType) -> bool
    ensures { IsTrue result → IsTrue (d.fits_kind kind (form_of_type ty.now) None) }
{
    match kind {
        Kind::Object => !is_function(ty),
        Kind::Function => false,
        Kind::TypeName => true,
        Kind::Enumerator => false,
        Kind::Tag => true,
    }
}

/// Gives what has an id a type, where it may have it.
fn settle_id(scopes: &mut Scopes, id: DeclId, ty: CType)
    requires declared { IsTrue (m.is_declared id.0 scopes.old.declared) }
    requires known { (n : ℕ) → IsTrue (names_below n ty) }
{
    let kind = scopes.entry(id).kind;
    if may_have(kind, &ty) {
        scopes.settle(id, ty, None);
    }
}

/// `settle NAME`: an object gets the type of three ints.
fn settle(alloc: Global, scopes: &mut Scopes, name: &str) -> Result<(), NoMemory> {
    let ty = type_of(alloc, "[3]")?;
    if let Some(id) = scopes.look(false, name.as_bytes()) {
        settle_id(scopes, id, ty);
    }
    Ok(())
}

/// `use NAME` and `begin NAME` note a use, and the place of an initializer or a body.
fn note(scopes: &mut Scopes, step: &str, name: &str, line: u32) {
    if let Some(id) = scopes.look(false, name.as_bytes()) {
        if step == "use" {
            scopes.note_use(id, at(line));
        } else {
            scopes.note_initialized(id, at(line));
        }
    }
}

fn leave(scopes: &mut Scopes) {
    if !scopes.is_file_scope() {
        scopes.leave();
    }
}

/// `fresh`: an id without a name.
fn draw(alloc: Global, scopes: &mut Scopes, out: &mut String) -> Result<(), Fail> {
    if scopes.ids() == u32::MAX {
        return Err(Fail::from("no id is left"));
    }
    let id = scopes.fresh();
    write_id(alloc, Some(id), out)
}

/// The line of a use, which comes before those of earlier steps where the word says so.
fn line_of(word: &str, line: u32) -> u32 {
    if word == "later" {
        return 1000u32.saturating_sub(line);
    }
    line
}

/// A step that declares nothing.
fn take_other(
    alloc: Global,
    scopes: &mut Scopes,
    words: &[&str],
    line: u32,
    out: &mut String,
) -> Result<(), Fail> {
    let (step, name) = (word(words, 0), word(words, 1));
    if step == "{" {
        scopes.enter()?;
    } else if step == "lambda" {
        scopes.enter_literal()?;
    } else if step == "}" {
        leave(scopes);
    } else if step == "settle" {
        settle(alloc, scopes, name)?;
    } else if step == "use" || step == "begin" {
        note(scopes, step, name, line_of(word(words, 2), line));
    } else if step == "fresh" {
        draw(alloc, scopes, out)?;
    } else {
        ask(alloc, scopes, words, out)?;
    }
    Ok(())
}

fn is_storage(step: &str) -> bool {
    step == "static"
        || step == "extern"
        || step == "public"
        || step == "local"
        || step == "typedef"
        || step == "tag"
}

fn take(
    alloc: Global,
    scopes: &mut Scopes,
    words: &[&str],
    line: u32,
    out: &mut String,
) -> Result<(), Fail> {
    let step = word(words, 0);
    if is_storage(step) {
        let answer = declare_typed(alloc, scopes, words, line);
        return write_answer(alloc, answer, out);
    }
    if step == "struct" {
        let answer = declare_struct(alloc, scopes, words, line);
        return write_answer(alloc, answer, out);
    }
    if step == "enumerator" {
        let answer = declare_enumerator(alloc, scopes, words, line);
        return write_answer(alloc, answer, out);
    }
    take_other(alloc, scopes, words, line, out)
}

fn take_text(
    alloc: Global,
    scopes: &mut Scopes,
    text: &str,
    line: u32,
    out: &mut String,
) -> Result<(), Fail> {
    let words: Vec<&str> = text.split(' ').collect(alloc)?;
    take(alloc, scopes, words.as_slice(), line, out)
}

fn take_steps(
    alloc: Global,
    scopes: &mut Scopes,
    steps: &[&str],
    out: &mut String,
) -> Result<(), Fail> {
    let mut line: u32 = 0;
    for step in steps {
        line = line.saturating_add(1);
        take_text(alloc, scopes, step, line, out)?;
    }
    Ok(())
}

/// The scopes of a unit that has a structure.
fn unit(alloc: Global) -> Result<Scopes, NoMemory> {
    let mut scopes = Scopes::new(alloc)?;
    add_struct(&mut scopes, None, 0)?;
    Ok(scopes)
}

/// What the steps of a script answer, each behind a blank.
pub fn answers(alloc: Global, script: &str) -> Result<String, Fail> {
    let mut scopes = unit(alloc)?;
    let mut out = String::new(alloc);
    let steps: Vec<&str> = script.split('|').collect(alloc)?;
    take_steps(alloc, &mut scopes, steps.as_slice(), &mut out)?;
    Ok(out)
}

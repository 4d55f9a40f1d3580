//! What stands in the place of a macro call: its replacement list with its arguments put in.
ghost use Rattle.std.specs.Prelude.{◌≡◌, ◌++◌, [], ◌∷◌, ◌&&◌, ◌||◌, not, length, map, slice_get, true, false, IfOk, MatchOption, Some, None};
ghost use Rattle.std.specs.Option.{option_copied};
ghost use Rattle.model_macros.specs.MacroDefinitions as definitions;
ghost use Rattle.model_macros.specs.ReplacementLists as lists;
ghost use Rattle.model_macros.specs.Substitution as spec;
ghost use Rattle.pp_macros.specs.Filling.{source_of, operand_of, operator_taken};

use crate::arguments::count_of;
use crate::hides::{Hides, Painted};
use crate::pasting::{
    begun, file_token, headed, line_token, or_placemarker, pasted_runs, string_of,
    without_placemarkers,
};
use c_tokens::PpTok;
use cake_base::{NoMemory, Place};
use model_macros::macros::Role;
use pp_definitions::{MacroDef, MacroTable, Piece, Row, Stack, is_close};
use std::alloc::Global;
use std::marker::Model;

/// An argument as written, and fully replaced where that was asked for.
#[derive(Drop)]
pub struct Argument {
    pub written: Row<Painted>,
    pub replaced: Option<Row<Painted>>,
}

impl Model for Argument {
    ghost use Rattle.model_macros.specs.Substitution as spec;

    ghost Value = { spec.Argument };

    ghost view = { λ a. record { written = a.written; replaced = a.replaced } };
}

/// An argument that a replacement list asks for; `optional` within the text of `__VA_OPT__`.
#[derive(Drop)]
pub struct Use {
    pub rank: usize,
    pub optional: bool,
}

impl Model for Use {
    ghost use Rattle.model_macros.specs.Substitution as spec;

    ghost Value = { spec.Use };

    ghost view = { λ u. record { rank = u.rank; optional = u.optional } };
}

/// The argument as written.
pub fn written(args: &[Argument], rank: usize) -> &[Painted]
    ensures { result.now ≡ spec.written args.now rank }
{
    match args.get(rank) {
        Some(argument) => argument.written.as_slice(),
        None => &[],
    }
}

/// The argument fully replaced, if that was asked for.
fn replaced(args: &[Argument], rank: usize) -> &[Painted]
    ensures { result.now ≡ spec.replaced args.now rank }
{
    match args.get(rank) {
        Some(argument) => match &argument.replaced {
            Some(run) => run.as_slice(),
            None => &[],
        },
        None => &[],
    }
}

/// Whether the variable arguments, fully replaced, hold a token.
fn varies(args: &[Argument], last: usize) -> bool
    ensures { result ≡ spec.varies args.now last }
{
    !replaced(args, last).is_empty()
}

/// Whether the argument isn't replaced yet.
fn is_unreplaced(args: &[Argument], rank: usize) -> bool
    ensures { result ≡ spec.is_unreplaced (slice_get args.now rank) }
{
    match args.get(rank) {
        Some(argument) => argument.replaced.is_none(),
        None => false,
    }
}

/// Whether a use needs its argument replaced now.
pub fn is_wanted(args: &[Argument], last: usize, asked: &Use) -> bool
    ensures { result ≡ spec.wanted args.now last asked.now }
{
    is_unreplaced(args, asked.rank) && (!asked.optional || varies(args, last))
}

/// The argument that the token asks for, fully replaced.
fn use_at(last: usize, optional: bool, role: Role) -> Option<Use>
    ensures { MatchOption result (spec.use_at last optional role ≡ []) (λ asked. spec.use_at last optional role ≡ asked ∷ []) }
{
    match role {
        Role::Replaced(rank) => Some(Use { rank, optional }),
        Role::Optional | Role::QuotedOptional => Some(Use {
            rank: last,
            optional: false,
        }),
        Role::Plain
        | Role::Paste
        | Role::Written(_)
        | Role::Quoted(_)
        | Role::Operand
        | Role::OptionalOperand
        | Role::Open
        | Role::Close
        | Role::File
        | Role::Line => None,
    }
}

/// Whether the text of `__VA_OPT__` goes on after the token.
fn optional_after(optional: bool, role: Role) -> bool
    ensures { result ≡ spec.optional_after optional role }
{
    match role {
        Role::Open => true,
        Role::Close => false,
        Role::Plain
        | Role::Paste
        | Role::Replaced(_)
        | Role::Written(_)
        | Role::Quoted(_)
        | Role::Operand
        | Role::Optional
        | Role::QuotedOptional
        | Role::OptionalOperand
        | Role::File
        | Role::Line => optional,
    }
}

/// The arguments that the replacement list asks for, from the left.
pub fn uses(alloc: Global, def: &MacroDef) -> Result<Row<Use>, NoMemory>
    ensures { IfOk result (λ us. us ≡ spec.uses def.now) }
{
    let last = count_of(def.params());
    let body = def.body();
    let mut row = Row::new(alloc);
    let mut optional = false;
    for piece in body {
        if let Some(asked) = use_at(last, optional, piece.role) {
            row.push(asked)?;
        }
        optional = optional_after(optional, piece.role);
    }
    Ok(row)
}

/// The text of `__VA_OPT__` that is read: what stands before it, whether a `##` joins them, the token
/// that it begins with, and whether it becomes a string.
#[derive(Drop)]
struct Group {
    done: Row<Painted>,
    glued: bool,
    head: PpTok,
    quoted: bool,
}

impl Model for Group {
    ghost use Rattle.model_macros.specs.Substitution as spec;

    ghost Value = { spec.Group };

    ghost view = { λ g. record { done = g.done; glued = g.glued; head = g.head; quoted = g.quoted } };
}

/// What is put together, and whether a `##` joins what comes next.
#[derive(Drop)]
struct Filling {
    done: Row<Painted>,
    glued: bool,
    group: Option<Group>,
}

impl Model for Filling {
    ghost use Rattle.model_macros.specs.Substitution as spec;

    ghost Value = { spec.Filling };

    ghost view = { λ f. record { done = f.done; glued = f.glued; group = f.group } };
}

/// What a replacement list is filled from.
#[derive(Drop)]
struct Source<'a> {
    args: &'a [Argument],
    varies: bool,
    file: &'a [u8],
    line: u32,
}

/// Two lists, with a `##` between them or not.
fn joined(
    alloc: Global,
    glued: bool,
    done: Row<Painted>,
    run: Row<Painted>,
) -> Result<Option<Row<Painted>>, NoMemory>
    ensures { IfOk result (λ o. o ≡ spec.joined glued done run) }
{
    if glued {
        return pasted_runs(alloc, done, run);
    }
    let mut all = done;
    all.append(run)?;
    Ok(Some(all))
}

/// Adds an operand, unless pasting makes no single token.
fn added(
    alloc: Global,
    group: Option<Group>,
    glued: bool,
    done: Row<Painted>,
    run: Row<Painted>,
) -> Result<Option<Filling>, NoMemory>
    ensures { IfOk result (λ o. o ≡ spec.added group glued done run) }
{
    match joined(alloc, glued, done, run)? {
        Some(all) => Ok(Some(Filling {
            done: all,
            glued: false,
            group,
        })),
        None => Ok(None),
    }
}

/// A list of one token.
fn alone(alloc: Global, p: Painted) -> Result<Row<Painted>, NoMemory>
    ensures { IfOk result (λ r. r ≡ p ∷ []) }
{
    let mut row = Row::new(alloc);
    row.push(p)?;
    Ok(row)
}

/// A copy of the tokens.
pub fn copied(alloc: Global, run: &[Painted]) -> Result<Row<Painted>, NoMemory>
    ensures { IfOk result (λ r. r ≡ run.now) }
{
    let mut row = Row::new(alloc);
    for p in run {
        row.push(p.copy(alloc)?)?;
    }
    Ok(row)
}

impl Group {
    /// What the text gives.
    fn value(
        head: &PpTok,
        quoted: bool,
        alloc: Global,
        run: Row<Painted>,
    ) -> Result<Row<Painted>, NoMemory>
        ensures { IfOk result (λ r. (g : spec.Group) → g.head ≡ head.now → g.quoted ≡ quoted → r ≡ spec.group_value g run) }
    {
        if quoted {
            alone(alloc, string_of(alloc, head, run)?)
        } else {
            or_placemarker(alloc, head, run)
        }
    }
}

/// Ends the text of `__VA_OPT__`.
fn end_group(
    alloc: Global,
    done: Row<Painted>,
    group: Option<Group>,
) -> Result<Option<Filling>, NoMemory>
    ensures { IfOk result (λ o. o ≡ spec.end_group done group) }
{
    let Some(outer) = group else {
        return Ok(Some(Filling {
            done,
            glued: false,
            group: None,
        }));
    };
    let value = Group::value(&outer.head, outer.quoted, alloc, done)?;
    let Group {
        done: before,
        glued,
        head: _,
        quoted: _,
    } = outer;
    added(alloc, None, glued, before, value)
}

impl Filling {
    /// Adds an operand.
    fn add(self, alloc: Global, run: Row<Painted>) -> Result<Option<Filling>, NoMemory>
        ensures { IfOk result (λ o. o ≡ spec.add self run) }
    {
        let Filling { done, glued, group } = self;
        added(alloc, group, glued, done, run)
    }

    /// Begins the text of `__VA_OPT__`.
    fn begin_group(self, alloc: Global, head: &PpTok, quoted: bool) -> Result<Filling, NoMemory>
        ensures { IfOk result (λ f. f ≡ spec.begin_group self head.now quoted) }
    {
        let Filling {
            done,
            glued,
            group: _,
        } = self;
        let outer = Group {
            done,
            glued,
            head: head.copy(alloc)?,
            quoted,
        };
        Ok(Filling {
            done: Row::new(alloc),
            glued: false,
            group: Some(outer),
        })
    }

    /// The list with a `##` at its end.
    fn glue(self) -> Filling
        ensures { result ≡ record self { glued = true } }
    {
        let Filling {
            done,
            glued: _,
            group,
        } = self;
        Filling {
            done,
            glued: true,
            group,
        }
    }
}

impl<'a> Source<'a> {
    /// Whether the token is left out with the text of `__VA_OPT__`.
    fn skips(&self, inside: bool, role: Role) -> bool
        ensures { result ≡ (not self.now.varies && inside && not (lists.is_close role)) }
    {
        !self.varies && inside && !is_close(role)
    }

    /// What a token adds that stands for tokens; nothing for the others.
    fn operand(
        &self,
        alloc: Global,
        tok: &PpTok,
        role: Role,
    ) -> Result<Option<Row<Painted>>, NoMemory>
        ensures { IfOk result (λ o. o ≡ operand_of (source_of self.now) tok.now role) }
    {
        match role {
            Role::Plain => Ok(Some(alone(alloc, Painted::fresh(alloc, tok.copy(alloc)?))?)),
            Role::Replaced(rank) => Ok(Some(headed(alloc, tok, replaced(self.args, rank))?)),
            Role::Written(rank) => {
                let run = headed(alloc, tok, written(self.args, rank))?;
                Ok(Some(or_placemarker(alloc, tok, run)?))
            }
            Role::Quoted(rank) => {
                let run = copied(alloc, written(self.args, rank))?;
                Ok(Some(alone(alloc, string_of(alloc, tok, run)?)?))
            }
            Role::File => Ok(Some(alone(alloc, file_token(alloc, tok, self.file)?)?)),
            Role::Line => Ok(Some(alone(alloc, line_token(alloc, tok, self.line)?)?)),
            Role::Paste
            | Role::Operand
            | Role::Optional
            | Role::QuotedOptional
            | Role::OptionalOperand
            | Role::Open
            | Role::Close => Ok(None),
        }
    }
}

impl Filling {
    /// Whether the text of `__VA_OPT__` is read.
    fn is_inside(&self) -> bool
        ensures { result ≡ spec.in_group self.now.group }
    {
        self.group.is_some()
    }

    /// Ends the text of `__VA_OPT__`.
    fn close(self, alloc: Global) -> Result<Option<Filling>, NoMemory>
        ensures { IfOk result (λ o. o ≡ spec.end_group self.done self.group) }
    {
        let Filling {
            done,
            glued: _,
            group,
        } = self;
        end_group(alloc, done, group)
    }

    /// Takes a token that stands for no tokens.
    fn take_operator(
        self,
        alloc: Global,
        tok: &PpTok,
        role: Role,
    ) -> Result<Option<Filling>, NoMemory>
        ensures { IfOk result (λ o. o ≡ operator_taken self tok.now role) }
    {
        match role {
            Role::Paste => Ok(Some(self.glue())),
            Role::Optional => Ok(Some(self.begin_group(alloc, tok, false)?)),
            Role::QuotedOptional => Ok(Some(self.begin_group(alloc, tok, true)?)),
            Role::Close => self.close(alloc),
            Role::Plain
            | Role::Replaced(_)
            | Role::Written(_)
            | Role::Quoted(_)
            | Role::Operand
            | Role::OptionalOperand
            | Role::Open
            | Role::File
            | Role::Line => Ok(Some(self)),
        }
    }

    /// Takes a token of the replacement list.
    fn take(
        self,
        alloc: Global,
        source: &Source,
        piece: &Piece,
    ) -> Result<Option<Filling>, NoMemory>
        ensures { IfOk result (λ o. o ≡ spec.filled_piece (source_of source.now) self piece.now) }
    {
        if source.skips(self.is_inside(), piece.role) {
            return Ok(Some(self));
        }
        match source.operand(alloc, &piece.tok, piece.role)? {
            Some(run) => self.add(alloc, run),
            None => self.take_operator(alloc, &piece.tok, piece.role),
        }
    }
}

/// The replacement list put together, unless pasting makes no single token.
fn filled(alloc: Global, source: &Source, body: &[Piece]) -> Result<Option<Row<Painted>>, NoMemory>
    ensures { IfOk result (λ o. o ≡ spec.filled (source_of source.now) (Some spec.empty_filling) body.now) }
{
    let mut filling = Filling {
        done: Row::new(alloc),
        glued: false,
        group: None,
    };
    for piece in body {
        match filling.take(alloc, source, piece)? {
            Some(next) => filling = next,
            None => return Ok(None),
        }
    }
    let Filling {
        done,
        glued: _,
        group: _,
    } = filling;
    Ok(Some(done))
}

/// The token at another place, with more macros in its hide set.
fn paint(alloc: Global, place: Place, hides: &Hides, p: Painted) -> Result<Painted, NoMemory>
    ensures { IfOk result (λ q. q ≡ spec.paint place hides.now p) }
{
    let Painted {
        mut tok,
        hides: own,
    } = p;
    tok.place = place;
    Ok(Painted {
        tok,
        hides: own.union(alloc, hides)?,
    })
}

/// The text that comes in the place of a name.
fn text_for(
    alloc: Global,
    name: &PpTok,
    hides: &Hides,
    run: Row<Painted>,
) -> Result<Row<Painted>, NoMemory>
    ensures { IfOk result (λ r. r ≡ spec.text_for name.now hides.now run) }
{
    let mut rest = Stack::new(without_placemarkers(alloc, run)?);
    let mut row = Row::new(alloc);
    let Some(first) = rest.pop() else {
        return Ok(row);
    };
    row.push(paint(alloc, name.place, hides, begun(name, first))?)?;
    while let Some(p) = rest.pop() {
        row.push(paint(alloc, name.place, hides, p)?)?;
    }
    Ok(row)
}

/// The text that comes in the place of a call of the macro, unless pasting makes no single token
/// (ISO/IEC 9899:2024, 6.10.5.2 to 6.10.5.4).
pub fn substituted(
    alloc: Global,
    table: &MacroTable,
    name: &PpTok,
    hides: &Hides,
    def: &MacroDef,
    args: &[Argument],
) -> Result<Option<Row<Painted>>, NoMemory>
    ensures { IfOk result (λ o. o ≡ spec.substituted table.now.files name.now hides.now def.now args.now) }
{
    let last = count_of(def.params());
    let source = Source {
        args,
        varies: varies(args, last),
        file: table.file_name(name.place.file),
        line: name.place.line,
    };
    match filled(alloc, &source, def.body())? {
        Some(run) => Ok(Some(text_for(alloc, name, hides, run)?)),
        None => Ok(None),
    }
}

/// Keeps an argument fully replaced.
pub fn set_replaced(args: &mut Vec<Argument>, rank: usize, run: Row<Painted>)
    ensures { args.new.items ≡ spec.with_replaced args.old.items rank run }
{
    if rank < args.len() {
        args[rank].replaced = Some(run);
    }
}

/// The arguments, of which none is replaced yet.
pub fn unreplaced(alloc: Global, runs: Row<Row<Painted>>) -> Result<Vec<Argument>, NoMemory>
    ensures { IfOk result (λ args. args.items ≡ map spec.unreplaced runs) }
{
    let mut rest = Stack::new(runs);
    let mut args = Vec::new(alloc);
    while let Some(run) = rest.pop() {
        args.push(Argument {
            written: run,
            replaced: None,
        })?;
    }
    Ok(args)
}

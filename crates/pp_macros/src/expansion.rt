//! Macro replacement by hide sets.
ghost use Rattle.std.specs.Prelude.{◌≡◌, ◌++◌, ◌∷◌, [], ℕ, List, ◌+◌, ◌<◌, ◌≤◌, length, map, drop, true, false, IfOk, IfErr, MatchOption, Some, None};
ghost use Rattle.model_macros.specs.Expansion as expansion;
ghost use Rattle.model_macros.specs.HideSets as hide_sets;
ghost use Rattle.model_macros.specs.Macros as macros;
ghost use Rattle.model_macros.specs.MacroArguments as arguments;
ghost use Rattle.model_macros.specs.Pasting as pasting;
ghost use Rattle.model_macros.specs.Substitution as substitution;
ghost use Rattle.model_macros.specs.MacroDefinitions as definitions;
ghost use Rattle.pp_macros.specs.Machine as machine;
ghost use Rattle.pp_macros.specs.Machine.{Charges, Finishes, Stops, Gives, GoesOn, Expanded, Shown, Called, CallParts, Refused, Begins, Answers, from_wanted, waiting_weight, all_weight, remaining};
ghost use Rattle.pp_macros.specs.Progress.{Progresses, From};
ghost use Rattle.model_macros.specs.apparatus.ExpansionRules.{Stays};
ghost use Rattle.model_macros.specs.apparatus.ExpansionRules as rules;

use crate::arguments::{count_of, inside, opens, split};
use crate::hides::{Hides, Painted};
use crate::rules::{CALL_NOT_ENDED, NO_SINGLE_TOKEN, WRONG_NUMBER_OF_ARGUMENTS};
use crate::substitution::{
    Argument, Use, copied, is_wanted, set_replaced, substituted, unreplaced, uses, written,
};
use c_tokens::{PpList, PpTok};
use cake_base::{Limit, LimitHit, NoMemory, Place};
use pp_definitions::{MacroDef, MacroError, MacroTable, Row, Stack, fault};
use std::alloc::Global;
use std::marker::Model;

/// The most tokens that replacement may make.
const MADE: u64 = 4_000_000;

/// Counts a text of that many tokens; an empty one counts as 1.
fn charge(made: &mut u64, len: usize, place: Place) -> Result<(), MacroError>
    ensures { Charges made.old len place result made.new }
{
    let cost = if len == 0 { 1 } else { len as u64 };
    if *made > MADE || cost > MADE - *made {
        return Err(MacroError::Limit(LimitHit {
            place,
            limit: Limit { number: 4 },
        }));
    }
    *made += cost;
    Ok(())
}

/// A call that waits for one of its arguments.
#[derive(Drop)]
struct Waiting<'a> {
    name: PpTok,
    hides: Hides,
    def: &'a MacroDef,
    /// What follows the call.
    rest: Stack<Painted>,
    /// What its replacement list still asks for.
    uses: Stack<Use>,
    args: Vec<Argument>,
    /// The rank of the argument that is replaced now.
    rank: usize,
    /// What stands before the call.
    out: Row<Painted>,
}

impl<'a> Model for Waiting<'a> {
    ghost use Rattle.pp_macros.specs.Machine as machine;

    ghost Value = { machine.Waiting };

    ghost view = { λ f. record { call = record { name = f.name; hides = f.hides; def = f.def.now; rest = f.rest }; uses = f.uses; args = f.args.items; rank = f.rank; out = f.out } };
}

/// A list that is worked through, and the calls that wait for it.
#[derive(Drop)]
struct State<'a> {
    calls: Stack<Waiting<'a>>,
    pending: Stack<Painted>,
    out: Row<Painted>,
}

/// The first use that is wanted, with those before it taken away.
fn next_use(uses: &mut Stack<Use>, args: &[Argument], last: usize) -> Option<Use>
    ensures { MatchOption result (from_wanted args.now last uses.old ≡ []) (λ asked. from_wanted args.now last uses.old ≡ asked ∷ uses.new) }
{
    while let Some(asked) = uses.pop() {
        if is_wanted(args, last, &asked) {
            return Some(asked);
        }
    }
    None
}

/// The text of a call whose arguments are replaced, counted.
fn finish(
    alloc: Global,
    table: &MacroTable,
    name: &PpTok,
    hides: &Hides,
    def: &MacroDef,
    args: &[Argument],
    made: &mut u64,
) -> Result<Row<Painted>, MacroError>
    ensures { (rest : arguments.Run) → Finishes table.now (record { name = name.now; hides = hides.now; def = def.now; rest = rest }) args.now made.old result made.new }
{
    let Some(body) = substituted(alloc, table, name, hides, def, args)? else {
        return Err(fault(name.place, NO_SINGLE_TOKEN));
    };
    charge(made, body.len(), name.place)?;
    Ok(body)
}

/// Goes on with a call: with its next argument, or with its text.
fn go_on<'a>(
    alloc: Global,
    table: &MacroTable,
    call: Waiting<'a>,
    calls: Stack<Waiting<'a>>,
    made: &mut u64,
) -> Result<State<'a>, MacroError>
    ensures gives { IfOk result (λ s. (a : expansion.Answer) → Gives table.now s.calls s.pending s.out made.new a → GoesOn table.now call.entry calls.entry made.old a) }
    ensures stops { IfErr result (λ e. Stops (GoesOn table.now call.entry calls.entry made.old) e made.new) }
    ensures shrinks { IfOk result (λ s. remaining made.new (length s.pending + all_weight s.calls) < remaining made.old (waiting_weight call.entry + all_weight calls.entry)) }
{
    let Waiting {
        name,
        hides,
        def,
        rest,
        mut uses,
        mut args,
        rank: _,
        out,
    } = call;
    let last = count_of(def.params());
    match next_use(&mut uses, args.as_slice(), last) {
        Some(asked) => {
            let rank = asked.rank;
            let run = copied(alloc, written(args.as_slice(), rank))?;
            set_replaced(&mut args, rank, Row::new(alloc));
            let mut waiting = calls;
            waiting.push(Waiting {
                name,
                hides,
                def,
                rest,
                uses,
                args,
                rank,
                out,
            })?;
            Ok(State {
                calls: waiting,
                pending: Stack::new(run),
                out: Row::new(alloc),
            })
        }
        None => {
            let body = finish(alloc, table, &name, &hides, def, args.as_slice(), made)?;
            let mut pending = rest;
            pending.put(body)?;
            Ok(State {
                calls,
                pending,
                out,
            })
        }
    }
}

/// The macro that replaces the token; none where the token stays.
fn shown<'a>(
    table: &'a MacroTable,
    p: &Painted,
    pending: &Stack<Painted>,
) -> Option<(usize, &'a MacroDef)>
    ensures { MatchOption result (Stays table.now p.now pending.now) (λ r. Shown table.now p.now pending.now r.0 r.1.now) }
{
    let Some((rank, def)) = table.ranked(p.tok.spelling()) else {
        return None;
    };
    if p.hides.holds(rank) {
        return None;
    }
    if def.params().is_some() && !opens(pending) {
        return None;
    }
    Some((rank, def))
}

/// The call that a macro without parameters is.
fn object_call<'a>(
    alloc: Global,
    p: &Painted,
    rank: usize,
    def: &'a MacroDef,
    rest: Stack<Painted>,
    out: Row<Painted>,
) -> Result<Waiting<'a>, NoMemory>
    ensures { IfOk result (λ w. w ≡ record { call = rules.object_call p.now rank def.now rest; uses = []; args = []; rank = 0; out = out }) }
{
    let mut hides = p.hides.copy(alloc)?;
    hides.add(rank)?;
    Ok(Waiting {
        name: p.tok.copy(alloc)?,
        hides,
        def,
        rest,
        uses: Stack::new(Row::new(alloc)),
        args: Vec::new(alloc),
        rank: 0,
        out,
    })
}

/// The place of the token.
fn place_of(p: &Painted) -> Place
    ensures { result ≡ p.now.tok.place }
{
    p.tok.place
}

/// The arguments of a call whose parenthesis is at the front, the parenthesis that closes it, and what
/// follows.
fn parts_of_call(
    alloc: Global,
    p: &Painted,
    def: &MacroDef,
    rest: Stack<Painted>,
) -> Result<(Row<Row<Painted>>, Painted, Stack<Painted>), MacroError>
    ensures parts { IfOk result (λ r. CallParts p.now def.now rest r.0 r.1 r.2) }
    ensures refused { IfErr result (λ e. Refused p.now def.now rest e) }
{
    let mut pending = rest;
    let _ = pending.pop();
    let place = place_of(p);
    let Some((run, close)) = inside(alloc, place, &mut pending)? else {
        return Err(fault(place, CALL_NOT_ENDED));
    };
    let Some(runs) = split(alloc, def, run)? else {
        return Err(fault(place, WRONG_NUMBER_OF_ARGUMENTS));
    };
    Ok((runs, close, pending))
}

/// The hide set of what a call gives.
fn hides_of_call(
    alloc: Global,
    p: &Painted,
    close: &Painted,
    rank: usize,
) -> Result<Hides, NoMemory>
    ensures { IfOk result (λ h. h ≡ hide_sets.with_rank (hide_sets.common p.now.hides close.now.hides) rank) }
{
    let mut hides = p.hides.common(alloc, &close.hides)?;
    hides.add(rank)?;
    Ok(hides)
}

/// The call of a macro like a function, whose parenthesis is at the front.
fn function_call<'a>(
    alloc: Global,
    p: &Painted,
    rank: usize,
    def: &'a MacroDef,
    rest: Stack<Painted>,
    out: Row<Painted>,
) -> Result<Waiting<'a>, MacroError>
    ensures called { IfOk result (λ w. Called p.now rank def.now rest out w) }
    ensures refused { IfErr result (λ e. Refused p.now def.now rest e) }
{
    let (runs, close, pending) = parts_of_call(alloc, p, def, rest)?;
    let hides = hides_of_call(alloc, p, &close, rank)?;
    let name = p.tok.copy(alloc)?;
    let asked = uses(alloc, def)?;
    let args = unreplaced(alloc, runs)?;
    Ok(new_call(name, hides, def, pending, asked, args, out))
}

/// A call of which no argument is replaced yet.
fn new_call<'a>(
    name: PpTok,
    hides: Hides,
    def: &'a MacroDef,
    rest: Stack<Painted>,
    asked: Row<Use>,
    args: Vec<Argument>,
    out: Row<Painted>,
) -> Waiting<'a>
    ensures { result ≡ record { call = record { name = name; hides = hides; def = def.now; rest = rest }; uses = asked; args = args.items; rank = 0; out = out } }
{
    Waiting {
        name,
        hides,
        def,
        rest,
        uses: Stack::new(asked),
        args,
        rank: 0,
        out,
    }
}

/// The call that a token begins which a macro replaces.
fn begin<'a>(
    alloc: Global,
    p: &Painted,
    rank: usize,
    def: &'a MacroDef,
    pending: Stack<Painted>,
    out: Row<Painted>,
) -> Result<Waiting<'a>, MacroError>
    ensures begins { IfOk result (λ w. (table : macros.Macros) → Shown table p.now pending rank def.now → Begins table p.now pending out w) }
    ensures stops { IfErr result (λ e. (table : macros.Macros) (fs : List machine.Waiting) (made : ℕ) → Shown table p.now pending rank def.now → Stops (Gives table fs (p.now ∷ pending) out made) e made) }
{
    match def.params() {
        None => {
            let call = object_call(alloc, p, rank, def, pending, out)?;
            Ok(call)
        }
        Some(_) => {
            let call = function_call(alloc, p, rank, def, pending, out)?;
            Ok(call)
        }
    }
}

/// Looks at a token that was taken from the list: it stays, or a call begins.
fn next_state<'a>(
    alloc: Global,
    table: &'a MacroTable,
    p: Painted,
    state: State<'a>,
    made: &mut u64,
) -> Result<State<'a>, MacroError>
    ensures gives { IfOk result (λ s. (a : expansion.Answer) → From table.now s made.new a → Gives table.now state.entry.calls (p ∷ state.entry.pending) state.entry.out made.old a) }
    ensures stops { IfErr result (λ e. Stops (Gives table.now state.entry.calls (p ∷ state.entry.pending) state.entry.out made.old) e made.new) }
    ensures shrinks { IfOk result (λ s. remaining made.new (length s.pending + all_weight s.calls) < remaining made.old (length state.entry.pending + 1 + all_weight state.entry.calls)) }
{
    let State {
        calls,
        pending,
        mut out,
    } = state;
    match shown(table, &p, &pending) {
        None => {
            out.push(p)?;
            Ok(State {
                calls,
                pending,
                out,
            })
        }
        Some((rank, def)) => {
            let call = begin(alloc, &p, rank, def, pending, out)?;
            let next = go_on(alloc, table, call, calls, made)?;
            Ok(next)
        }
    }
}

/// The call with its argument fully replaced.
fn resumed<'a>(call: Waiting<'a>, run: Row<Painted>) -> Waiting<'a>
    ensures { result ≡ record call.entry { args = substitution.with_replaced call.entry.args call.entry.rank run } }
{
    let Waiting {
        name,
        hides,
        def,
        rest,
        uses,
        mut args,
        rank,
        out,
    } = call;
    set_replaced(&mut args, rank, run);
    Waiting {
        name,
        hides,
        def,
        rest,
        uses,
        args,
        rank,
        out,
    }
}

/// What comes after a step.
#[derive(Drop)]
enum Progress<'a> {
    Done(Row<Painted>),
    More(State<'a>),
}

/// One step of the replacement.
fn step<'a>(
    alloc: Global,
    table: &'a MacroTable,
    state: State<'a>,
    made: &mut u64,
) -> Result<Progress<'a>, MacroError>
    ensures gives { IfOk result (λ r. Progresses table.now state.entry made.old r made.new) }
    ensures stops { IfErr result (λ e. Stops (From table.now state.entry made.old) e made.new) }
{
    let State {
        mut calls,
        mut pending,
        out,
    } = state;
    match pending.pop() {
        Some(p) => {
            let rest = State {
                calls,
                pending,
                out,
            };
            let next = next_state(alloc, table, p, rest, made)?;
            Ok(Progress::More(next))
        }
        None => match calls.pop() {
            None => Ok(Progress::Done(out)),
            Some(call) => {
                let next = go_on(alloc, table, resumed(call, out), calls, made)?;
                Ok(Progress::More(next))
            }
        },
    }
}

/// What the list becomes.
fn expand_run(
    alloc: Global,
    table: &MacroTable,
    run: Row<Painted>,
    made: &mut u64,
) -> Result<Row<Painted>, MacroError>
    ensures { Answers table.now run made.old result made.new }
{
    let mut state = State {
        calls: Stack::new(Row::new(alloc)),
        pending: Stack::new(run),
        out: Row::new(alloc),
    };
    loop {
        match step(alloc, table, state, made)? {
            Progress::Done(out) => return Ok(out),
            Progress::More(next) => state = next,
        }
    }
}

/// The tokens, with no macro in their hide sets.
fn fresh_run(alloc: Global, toks: &PpList) -> Result<Row<Painted>, NoMemory>
    ensures { IfOk result (λ r. r ≡ map pasting.fresh toks.now) }
{
    let mut run = Row::new(alloc);
    for at in 0..toks.count() {
        let Some(tok) = toks.get(at) else {
            return Ok(run);
        };
        run.push(Painted::fresh(alloc, tok.copy(alloc)?))?;
    }
    Ok(run)
}

/// The tokens without their hide sets.
fn into_list(alloc: Global, run: Row<Painted>) -> Result<PpList, NoMemory>
    ensures { IfOk result (λ list. list ≡ map (λ p. p.tok) run) }
{
    let mut rest = Stack::new(run);
    let mut list = PpList::new(alloc);
    while let Some(p) = rest.pop() {
        let Painted { tok, hides: _ } = p;
        list.push(tok)?;
    }
    Ok(list)
}

/// How many tokens macro replacement has made.
#[derive(Debug, Drop)]
pub struct Work {
    pub made: u64,
}

/// Replaces the macros in a list of tokens (ISO/IEC 9899:2024, 6.10.5).
///
/// The faults are P05 to P07, at the name that begins the outermost call; the limit is M04, at the
/// outermost macro name, where `made` would pass 4,000,000. Each replacement counts its tokens, and at
/// least 1. After a refusal `made` is the count of the replacements done.
pub fn expand(
    alloc: Global,
    table: &MacroTable,
    toks: &PpList,
    work: &mut Work,
) -> Result<PpList, MacroError>
    ensures { Expanded table.now toks.now work.old.made result work.new.made }
{
    let run = fresh_run(alloc, toks)?;
    let done = expand_run(alloc, table, run, &mut work.made)?;
    let list = into_list(alloc, done)?;
    Ok(list)
}

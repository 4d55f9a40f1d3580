//! What is put on the sinks, built whole before the first put.
ghost use Rattle.std.specs.Prelude.{◌≡◌, List, IfOk, Ok};
ghost use Rattle.cake_base.specs.declared.places.Place.{Place};
ghost use Rattle.cake_base.specs.declared.rules.Mark.{Mark};
ghost use Rattle.cake_cli.specs.Accepted.{accepted};
ghost use Rattle.cake_cli.specs.Answer.{Refused, Unbuilt, Limited, Written, delivery_of};
ghost use Rattle.c_model.specs.FirstUnit.{UnitPlaces, returning};
ghost use Rattle.cake_cli.specs.ReportLines.{notes_text};
ghost use Rattle.cake_cli.specs.Verdict.{HasForm};
ghost use Rattle.pp_directives.specs.Promise.{with_log};
ghost use Rattle.cake_cli.specs.Promise.{IsDelivered};
ghost use Rattle.cake_cli.specs.Reports.{IsReport, ReportsTokens, ReportsUnit, ReportsDone, ReportsStop, unread_answer};
ghost use Rattle.cake_cli.specs.Views.{expr_of};

use crate::expanded::expanded_text;
use crate::expression::Expr;
use crate::lowering::text_of;
use crate::modes::Mode;
use crate::reader::{Reading, read_unit};
use crate::report_lines::{push_cannot_read, push_fault, push_limit, push_not_built, push_notes};
use crate::status::Status;
use c_parser::{ParseError, parse};
use c_tokens::{CList, TokenError, convert_tokens};
use cake_base::{Bytes, Fault, LimitHit, NoMemory, Place};
use pp_directives::{Prep, PrepError, PrepLog};
use std::alloc::Global;

/// A status, and what is put on each sink.
#[derive(Drop)]
pub struct Report {
    pub status: Status,
    pub out: Bytes,
    pub err: Bytes,
}

fn refused(alloc: Global, log: &PrepLog, fault: &Fault) -> Result<Report, NoMemory>
    ensures { IfOk result (IsReport (Refused log.now fault.now)) }
{
    let mut err = Bytes::new(alloc);
    push_notes(&mut err, log)?;
    push_fault(&mut err, log, fault)?;
    Ok(Report {
        status: Status::Refused,
        out: Bytes::new(alloc),
        err,
    })
}

fn unbuilt(alloc: Global, log: &PrepLog, place: Place) -> Result<Report, NoMemory>
    ensures { IfOk result (IsReport (Unbuilt log.now place)) }
{
    let mut err = Bytes::new(alloc);
    push_notes(&mut err, log)?;
    push_not_built(&mut err, log, place)?;
    Ok(Report {
        status: Status::Refused,
        out: Bytes::new(alloc),
        err,
    })
}

fn limited(alloc: Global, log: &PrepLog, hit: &LimitHit) -> Result<Report, NoMemory>
    ensures { IfOk result (IsReport (Limited log.now hit.now)) }
{
    let mut err = Bytes::new(alloc);
    push_notes(&mut err, log)?;
    push_limit(&mut err, log, hit)?;
    Ok(Report {
        status: Status::Limit,
        out: Bytes::new(alloc),
        err,
    })
}

fn unreadable(alloc: Global, log: &PrepLog, file: u32) -> Result<Report, NoMemory>
    ensures { IfOk result (IsReport (unread_answer log.now file)) }
{
    let name = log.file_name(file).unwrap_or("");
    let mut err = Bytes::new(alloc);
    push_notes(&mut err, log)?;
    push_cannot_read(&mut err, name)?;
    Ok(Report {
        status: Status::ReadFault,
        out: Bytes::new(alloc),
        err,
    })
}

fn written(alloc: Global, log: &PrepLog, out: Bytes) -> Result<Report, NoMemory>
    ensures status { IfOk result (λ r. r.status ≡ Status.Written) }
    ensures out { IfOk result (λ r. r.out ≡ out) }
    ensures err { IfOk result (λ r. r.err ≡ notes_text log.now) }
{
    let mut err = Bytes::new(alloc);
    push_notes(&mut err, log)?;
    Ok(Report {
        status: Status::Written,
        out,
        err,
    })
}

/// What goes to out of a unit that returns this value.
fn unit_text(alloc: Global, mode: Mode, value: &Expr) -> Result<Bytes, NoMemory>
    ensures { IfOk result (λ text. (places : UnitPlaces) (marks : List Mark) → IsDelivered (delivery_of mode (accepted (returning (expr_of value.now) places) marks)) text) }
{
    match mode {
        Mode::Translate => text_of(alloc, value),
        Mode::Expand => Ok(Bytes::new(alloc)),
        Mode::Check => Ok(Bytes::new(alloc)),
    }
}

/// The report on tokens that are a unit of the grammar.
fn report_tree(
    alloc: Global,
    mode: Mode,
    log: &PrepLog,
    tokens: &CList,
    end: Place,
) -> Result<Report, NoMemory>
    requires { HasForm tokens.now }
    ensures { IfOk result (ReportsTokens mode log.now tokens.now end) }
{
    match read_unit(alloc, tokens, end)? {
        Reading::Stops(place) => unbuilt(alloc, log, place),
        Reading::Reads(value) => {
            let out = unit_text(alloc, mode, &value)?;
            written(alloc, log, out)
        }
    }
}

/// The report on tokens of C.
fn report_tokens(
    alloc: Global,
    mode: Mode,
    log: &PrepLog,
    tokens: &CList,
    end: Place,
) -> Result<Report, NoMemory>
    ensures { IfOk result (ReportsTokens mode log.now tokens.now end) }
{
    match parse(alloc, tokens, end) {
        Ok(tree) => {
            drop(tree);
            report_tree(alloc, mode, log, tokens, end)
        }
        Err(ParseError::Fault(fault)) => refused(alloc, log, &fault),
        Err(ParseError::Limit(hit)) => limited(alloc, log, &hit),
        Err(ParseError::NoMemory) => Err(NoMemory),
    }
}

/// The report on a unit that is preprocessed, where its tokens are read.
fn report_unit(alloc: Global, mode: Mode, log: &PrepLog, prep: &Prep) -> Result<Report, NoMemory>
    ensures { IfOk result (ReportsUnit mode log.now (with_log log.now prep.now)) }
{
    match convert_tokens(alloc, prep.tokens()) {
        Ok(tokens) => report_tokens(alloc, mode, log, &tokens, prep.end()),
        Err(TokenError::Fault(fault)) => refused(alloc, log, &fault),
        Err(TokenError::NoMemory) => Err(NoMemory),
    }
}

/// The report on a unit that is preprocessed.
pub fn report_prepared(
    alloc: Global,
    mode: Mode,
    log: &PrepLog,
    prep: &Prep,
) -> Result<Report, NoMemory>
    ensures { IfOk result (ReportsDone mode (Ok (with_log log.now prep.now))) }
{
    match mode {
        Mode::Translate => report_unit(alloc, mode, log, prep),
        Mode::Expand => {
            let out = expanded_text(alloc, prep.tokens())?;
            written(alloc, log, out)
        }
        Mode::Check => report_unit(alloc, mode, log, prep),
    }
}

/// The report on a unit that isn't preprocessed to its end.
pub fn report_stop(alloc: Global, log: &PrepLog, error: PrepError) -> Result<Report, NoMemory>
    ensures { IfOk result (ReportsStop error log.now) }
{
    match error {
        PrepError::Fault(fault) => refused(alloc, log, &fault),
        PrepError::Limit(hit) => limited(alloc, log, &hit),
        PrepError::Read(file, _) => unreadable(alloc, log, file),
        PrepError::NoMemory => Err(NoMemory),
    }
}

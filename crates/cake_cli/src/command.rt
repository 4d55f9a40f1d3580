//! The command: its words, its files and its two sinks, to a status.
ghost use Rattle.std.specs.Prelude.{◌≡◌, ◌≢◌, ◌⊎◌, ◌<◌, map, length, string_bytes, IfOk};
ghost use Rattle.cake_base.specs.Outside.{FilesView, SinkView};
ghost use Rattle.model_preprocessing.specs.PreprocessedUnit.{command_lines};
ghost use Rattle.cake_cli.specs.Words.{plan};
ghost use Rattle.pp_directives.specs.Promise.{Kept};
ghost use Rattle.cake_cli.specs.Call.{call_of};
ghost use Rattle.cake_cli.specs.Promise.{ForDue, AreRead, AreBad, IsWritten, IsRefused, IsUnreadable, IsLimited, IsExcused, Exactly, PutsText, ErrGets, PutFailed, IsFailedRead, ReadFailed, NothingOnOut, NothingOnErr, NoFault, Meets, Reads, ReadsAll};
ghost use Rattle.cake_cli.specs.Reports.{ReportsPlan, Sent, Outcome};
ghost use Rattle.cake_cli.specs.WordsRead.{plan_as};

use crate::report::{Report, report_prepared, report_stop};
use crate::status::Status;
use crate::words::{Plan, WordsError, read_words, usage_line};
use cake_base::{Files, NoMemory, Sink};
use pp_directives::{PrepLog, preprocess};
use std::alloc::Global;

/// Puts the text on err and then that on out, where they aren't empty.
fn deliver<O: Sink, E: Sink>(
    status: Status,
    out_text: &[u8],
    err_text: &[u8],
    out: &mut O,
    err: &mut E,
) -> Status
    ensures { (files files' : FilesView) → Sent status out_text.now err_text.now (call_of files files' (O.shows out.old) (O.shows out.new) (E.shows err.old) (E.shows err.new)) result }
{
    if !err_text.is_empty() && err.put(err_text).is_err() {
        return Status::WriteFault;
    }
    if !out_text.is_empty() && out.put(out_text).is_err() {
        return Status::WriteFault;
    }
    status
}

/// Preprocesses the unit and makes its report.
fn report<F: Files>(
    alloc: Global,
    plan: &Plan,
    name: &str,
    files: &mut F,
) -> Result<Report, NoMemory>
    requires { length (command_lines plan.now.options.defines) < 4294967295 }
    ensures report { IfOk result (λ r. (out out' err err' : SinkView) → ReportsPlan (plan_as plan.now name.now) (call_of (F.shows files.old) (F.shows files.new) out out' err err') r) }
    ensures reads { Kept (F.shows files.old) (F.shows files.new) }
{
    let mut log = PrepLog::new(alloc);
    match preprocess(alloc, files, &plan.options, name, &mut log) {
        Ok(prep) => report_prepared(alloc, plan.mode, &log, &prep),
        Err(error) => report_stop(alloc, &log, error),
    }
}

/// Words to status, by the definitions.
fn run<F: Files, O: Sink, E: Sink>(
    alloc: Global,
    words: &[String],
    files: &mut F,
    out: &mut O,
    err: &mut E,
) -> Status
    ensures outcome { let c = call_of (F.shows files.old) (F.shows files.new) (O.shows out.old) (O.shows out.new) (E.shows err.old) (E.shows err.new) in
        let p = plan (map string_bytes words.now) in
        ForDue p c (λ due. Outcome p due c result) }
    ensures reads { Reads (plan (map string_bytes words.now)) (call_of (F.shows files.old) (F.shows files.new) (O.shows out.old) (O.shows out.new) (E.shows err.old) (E.shows err.new)) }
{
    let plan = match read_words(alloc, words) {
        Ok(plan) => plan,
        Err(WordsError::Bad(number)) => {
            let line = usage_line(number);
            return deliver(Status::Usage, b"", line.as_str().as_bytes(), out, err);
        }
        Err(WordsError::NoMemory) => return Status::NoMemory,
    };
    let name = match &plan.file {
        Some(name) => name.as_str(),
        None => unreachable!(),
    };
    match report(alloc, &plan, name, files) {
        Ok(report) => deliver(
            report.status,
            report.out.as_slice(),
            report.err.as_slice(),
            out,
            err,
        ),
        Err(NoMemory) => Status::NoMemory,
    }
}

/// The command: reads its words, preprocesses the unit of the file that they name, and puts a text on
/// err and then one on out.
///
/// Answers as `Status` says. The text on out, where it answers `Written` without `-E` or `--check`, is
/// a C89 program (ISO/IEC 9899:1990) that behaves as the C23 unit of the file and its headers
/// (ISO/IEC 9899:2024), wherever that has a defined behaviour; with `-E` it is the preprocessed
/// tokens, and with `--check` there is none. It takes memory only where the words have a reading, and
/// none once its texts are built.
pub fn cake<F: Files, O: Sink, E: Sink>(
    alloc: Global,
    words: &[String],
    files: &mut F,
    out: &mut O,
    err: &mut E,
) -> Status
    // A text that reads as a flat C89 program, exports what the unit defines and runs as it does; or that of
    // the preprocessed tokens; or none.
    ensures written { let c = call_of (F.shows files.old) (F.shows files.new) (O.shows out.old) (O.shows out.new) (E.shows err.old) (E.shows err.new) in let p = plan (map string_bytes words.now) in
        result ≡ Status.Written → ForDue p c (λ due. PutsText due c) }

    // What err gets: the text of the answer that is due, or nothing, or a prefix.
    ensures err { let c = call_of (F.shows files.old) (F.shows files.new) (O.shows out.old) (O.shows out.new) (E.shows err.old) (E.shows err.new) in let p = plan (map string_bytes words.now) in
        ForDue p c (λ due. ErrGets result p due c) }

    // Each answer has its cause.
    ensures refused { let c = call_of (F.shows files.old) (F.shows files.new) (O.shows out.old) (O.shows out.new) (E.shows err.old) (E.shows err.new) in let p = plan (map string_bytes words.now) in
        ForDue p c (λ due. Exactly (result ≡ Status.Refused) (IsRefused due) (IsExcused result p c)) }
    ensures usage { let c = call_of (F.shows files.old) (F.shows files.new) (O.shows out.old) (O.shows out.new) (E.shows err.old) (E.shows err.new) in let p = plan (map string_bytes words.now) in
        Exactly (result ≡ Status.Usage) (AreBad p) (IsExcused result p c) }
    ensures read_fault { let c = call_of (F.shows files.old) (F.shows files.new) (O.shows out.old) (O.shows out.new) (E.shows err.old) (E.shows err.new) in let p = plan (map string_bytes words.now) in
        ForDue p c (λ due. (result ≡ Status.ReadFault → IsUnreadable due ⊎ IsFailedRead p c) × (IsUnreadable due → (result ≡ Status.ReadFault) ⊎ IsExcused result p c)) }
    ensures write_fault { let c = call_of (F.shows files.old) (F.shows files.new) (O.shows out.old) (O.shows out.new) (E.shows err.old) (E.shows err.new) in let p = plan (map string_bytes words.now) in
        result ≡ Status.WriteFault → ForDue p c (λ due. PutFailed due c) }
    ensures no_memory { let c = call_of (F.shows files.old) (F.shows files.new) (O.shows out.old) (O.shows out.new) (E.shows err.old) (E.shows err.new) in let p = plan (map string_bytes words.now) in
        result ≡ Status.NoMemory → AreRead p × NothingOnOut c × NothingOnErr c }
    ensures limit { let c = call_of (F.shows files.old) (F.shows files.new) (O.shows out.old) (O.shows out.new) (E.shows err.old) (E.shows err.new) in let p = plan (map string_bytes words.now) in
        ForDue p c (λ due. Exactly (result ≡ Status.Limit) (IsLimited due) (IsExcused result p c)) }

    // What is due to be written is written, where no count of faults rose.
    ensures complete { let c = call_of (F.shows files.old) (F.shows files.new) (O.shows out.old) (O.shows out.new) (E.shows err.old) (E.shows err.new) in let p = plan (map string_bytes words.now) in
        ForDue p c (λ due. IsWritten due → NoFault c → (result ≡ Status.Written) ⊎ (result ≡ Status.NoMemory)) }

    // All that is said of the answer that is due holds of one answer.
    ensures due { let c = call_of (F.shows files.old) (F.shows files.new) (O.shows out.old) (O.shows out.new) (E.shows err.old) (E.shows err.new) in let p = plan (map string_bytes words.now) in
        ForDue p c (λ due. Meets result p due c) }

    // Nothing else is put on out, and nothing else is read.
    ensures out { let c = call_of (F.shows files.old) (F.shows files.new) (O.shows out.old) (O.shows out.new) (E.shows err.old) (E.shows err.new) in
        result ≢ Status.Written → result ≢ Status.WriteFault → NothingOnOut c }
    ensures reads { let c = call_of (F.shows files.old) (F.shows files.new) (O.shows out.old) (O.shows out.new) (E.shows err.old) (E.shows err.new) in let p = plan (map string_bytes words.now) in
        Reads p c }
    ensures each_read { let c = call_of (F.shows files.old) (F.shows files.new) (O.shows out.old) (O.shows out.new) (E.shows err.old) (E.shows err.new) in let p = plan (map string_bytes words.now) in
        result ≢ Status.NoMemory → (ReadFailed c → ⊥) → ReadsAll p c }
{
    run(alloc, words, files, out, err)
}

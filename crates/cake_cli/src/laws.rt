//! Laws of the command: each function does nothing, and its contract is the law.
ghost use Rattle.std.specs.Prelude.{◌≡◌, ◌↔◌, ℕ, List, Some, Result, IsTrue};
ghost use Rattle.cake_base.specs.Outside.{Held};
ghost use Rattle.model_tokens.specs.declared.tokens.CTok.{CTok};
ghost use Rattle.model_core.specs.Core.{Core};
ghost use Rattle.c_model.specs.FirstUnit.{IsUnit};
ghost use Rattle.model_preprocessing.specs.PreprocessedUnit.{Prepared};
ghost use Rattle.model_preprocessing.specs.Processes.{Log, Refusal};
ghost use Rattle.model_findings.specs.Ownership.{is_refused};
ghost use Rattle.cake_cli.specs.Accepted.{Accepted};
ghost use Rattle.cake_cli.specs.Verdict.{Verdict, IsVerdict};
ghost use Rattle.cake_cli.specs.Words.{Plan};
ghost use Rattle.cake_cli.specs.Answer.{Answer, RefusedByFindings, IsAnswer, IsAnswerIn, IsOfUnit, answer_on, carried, err_text};
ghost use Rattle.cake_cli.specs.Reports.{status_of};

use crate::modes::Mode;

/// Tokens are the unit of one core at most.
pub fn one_unit()
    ensures { (ts : List CTok) (core other : Core) → IsUnit ts core → IsUnit ts other → core ≡ other }
{}

/// What preprocessing gives has one verdict at most.
pub fn one_verdict()
    ensures { (done : Result Prepared Refusal) (verdict other : Verdict) → IsVerdict done verdict → IsVerdict done other → verdict ≡ other }
{}

/// What preprocessing gives has a verdict.
pub fn every_verdict()
    ensures { (done : Result Prepared Refusal) → (verdict : Verdict) × IsVerdict done verdict }
{}

/// Words and files have one answer at most.
pub fn one_answer()
    ensures { (plan : Result Plan ℕ) (held : Held) (answer other : Answer) → IsAnswer plan held answer → IsAnswer plan held other → answer ≡ other }
{}

/// Words and files have an answer.
pub fn every_answer()
    ensures { (plan : Result Plan ℕ) (held : Held) → (answer : Answer) × IsAnswer plan held answer }
{}

/// With `--check` the status and the text on err are those that come without it.
pub fn check_reports_as_without()
    ensures { (done : Result Prepared Refusal) (answer other : Answer) → IsAnswerIn Mode.Check done answer → IsAnswerIn Mode.Translate done other → (status_of answer ≡ status_of other) × (err_text answer ≡ err_text other) }
{}

/// What an answer carries of a unit is the unit's core, with the marks that preprocessing gives.
pub fn answer_carries_the_unit()
    ensures { (mode : Mode) (done : Result Prepared Refusal) (answer : Answer) (unit : Accepted) → IsAnswerIn mode done answer → carried answer ≡ Some unit → IsOfUnit done unit }
{}

/// A unit that has a core is refused exactly where a finding refuses it.
pub fn refused_by_findings()
    ensures { (mode : Mode) (log : Log) (unit : Accepted) → IsTrue (is_refused unit.marks unit.ownership) ↔ (answer_on mode log unit ≡ RefusedByFindings log unit) }
{}

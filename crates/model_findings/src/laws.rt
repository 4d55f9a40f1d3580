//! Laws of findings: each function does nothing, and its contract is the law.
ghost use Rattle.std.specs.Prelude.{◌≡◌, ◌↔◌, false, List, [], ◌∷◌, ◌++◌, All, Any, IsTrue};
ghost use Rattle.cake_base.specs.declared.rules.Fault.{Fault};
ghost use Rattle.cake_base.specs.declared.rules.Severity.TheVariants.{Error, Warning, Ignored};
ghost use Rattle.cake_base.specs.declared.rules.Severity.{Severity};
ghost use Rattle.cake_base.specs.declared.rules.Rule.{Rule};
ghost use Rattle.cake_base.specs.declared.rules.Act.TheVariants.{Push, Pop, Assign};
ghost use Rattle.cake_base.specs.declared.rules.Mark.{Mark};
ghost use Rattle.model_findings.specs.Severities.{InForce, holds_at, behind_marks, severity_at};
ghost use Rattle.model_findings.specs.Ownership.{NotChecked, Checked, is_refused};
ghost use Rattle.model_findings.specs.SeverityExamples.{rule_of, finding, pragma};

/// Findings refuse a unit exactly where one of them is an error; where nobody looked for any, nothing is refused.
pub fn refused_for_an_error()
    ensures looked { (marks : List Mark) (findings : List Fault) → IsTrue (is_refused marks (Checked findings)) ↔ Any (λ finding. severity_at marks finding ≡ Error) findings }
    ensures unlooked { (marks : List Mark) → is_refused marks NotChecked ≡ false }
{}

/// A finding is an error where each pragma stands behind it.
pub fn error_before_pragmas()
    ensures { (marks : List Mark) (finding : Fault) → All (λ mark. holds_at finding.place mark ≡ false) marks → severity_at marks finding ≡ Error }
{}

/// What is set between `push` and its `pop` is forgotten behind them.
pub fn pop_brings_back()
    ensures { (push pop : Mark) (inner others : List Mark) (finding : Fault) (state : InForce) → push.act ≡ Push → pop.act ≡ Pop →
        IsTrue (holds_at finding.place push) → IsTrue (holds_at finding.place pop) → All (λ mark. (severity : Severity) × (rule : Rule) × (mark.act ≡ Assign severity rule)) inner →
        behind_marks finding (push ∷ inner ++ pop ∷ others) state ≡ behind_marks finding others state }
{}

/// A pragma is for its rule, and for the places behind it.
pub fn severities_are_worked()
    ensures its_rule { severity_at (pragma 3 (Assign Warning (rule_of 4)) ∷ []) (finding 4 3) ≡ Warning }
    ensures another_rule { severity_at (pragma 3 (Assign Warning (rule_of 4)) ∷ []) (finding 5 3) ≡ Error }
    ensures before_it { severity_at (pragma 3 (Assign Warning (rule_of 4)) ∷ []) (finding 4 2) ≡ Error }
    ensures behind_push { severity_at (pragma 0 (Assign Warning (rule_of 4)) ∷ pragma 3 Push ∷ pragma 3 (Assign Ignored (rule_of 4)) ∷ pragma 9 Pop ∷ []) (finding 4 8) ≡ Ignored }
    ensures behind_pop { severity_at (pragma 0 (Assign Warning (rule_of 4)) ∷ pragma 3 Push ∷ pragma 3 (Assign Ignored (rule_of 4)) ∷ pragma 9 Pop ∷ []) (finding 4 9) ≡ Warning }
    ensures pop_alone { severity_at (pragma 0 (Assign Warning (rule_of 4)) ∷ pragma 3 Pop ∷ []) (finding 4 5) ≡ Warning }
{}

//! Laws of conditions.
ghost use Rattle.std.specs.Prelude.{◌≡◌, Bool, List, Result};
ghost use Rattle.model_conditions.specs.declared.conditions.ConditionRule.{ConditionRule};
ghost use Rattle.model_conditions.specs.declared.conditions.ConditionToken.{ConditionToken};
ghost use Rattle.model_conditions.specs.ConditionGrammar.{Condition, CONDITIONAL, Derives};
ghost use Rattle.model_conditions.specs.Judgement.{Judged};
ghost use Rattle.model_conditions.specs.Conditions.{judged};

/// Tokens are the condition of one tree at most (ISO/IEC 9899:2024, 6.6).
pub fn one_tree()
    ensures { (tokens : List ConditionToken) (d e : Condition) → Derives CONDITIONAL tokens d → Derives CONDITIONAL tokens e → d ≡ e }
{}

/// There is exactly one judgement on each list of tokens.
pub fn one_judgement()
    ensures judges { (tokens : List ConditionToken) → Judged tokens (judged tokens) }
    ensures only { (tokens : List ConditionToken) (answer : Result Bool ConditionRule) → Judged tokens answer → answer ≡ judged tokens }
{}

//! Whether a condition holds.
ghost use Rattle.std.specs.Prelude.{◌≡◌};
ghost use Rattle.model_conditions.specs.Conditions as spec;
ghost use Rattle.model_conditions.specs.ConditionTokens.{condition_tokens as tokens_of};
ghost use Rattle.pp_conditions.specs.Answers.{Evaluated, Gives, Stands, judgement};

use crate::defined::defined_answered;
use crate::errors::Refusal;
use crate::reader::judge;
use crate::tokens::condition_tokens;
use c_tokens::PpList;
use cake_base::{Family, Fault, Place, Rule};
use model_conditions::conditions::ConditionRule;
use pp_macros::{MacroError, MacroTable, Work, expand};
use std::alloc::Global;

fn rule_number(rule: ConditionRule) -> u32
    ensures { result ≡ spec.rule_number rule }
{
    match rule {
        ConditionRule::Malformed => 14,
        ConditionRule::Undefined => 15,
        ConditionRule::LeftOut => 20,
    }
}

/// A refusal, which stands at the `#` of the directive.
fn stands(at: Place, refusal: Refusal) -> MacroError
    ensures { Stands at refusal result }
{
    match refusal {
        Refusal::Broken(rule) => MacroError::Fault(Fault {
            place: at,
            rule: Rule {
                family: Family::P,
                number: rule_number(rule),
            },
        }),
        Refusal::NoMemory => MacroError::NoMemory,
    }
}

/// Whether the condition holds that the tokens are, after macros are replaced.
fn judge_replaced(alloc: Global, line: &PpList) -> Result<bool, Refusal>
    ensures { Gives result (judgement (tokens_of line.now)) }
{
    let tokens = condition_tokens(alloc, line)?;
    let holds = judge(alloc, tokens.as_slice())?;
    Ok(holds)
}

/// Whether the condition holds that follows `#if` or `#elif` on its line (ISO/IEC 9899:2024, 6.10.2);
/// `at` is the place of the directive's `#`.
///
/// The faults are P14, P15 and P20 at that place, and P05 to P07 at the name on the line that begins
/// the outermost call; the limit is M04, at the outermost macro name. After a refusal `made` is the
/// count of the replacements done.
pub fn evaluate(
    alloc: Global,
    table: &MacroTable,
    at: Place,
    line: &PpList,
    work: &mut Work,
) -> Result<bool, MacroError>
    ensures { Evaluated table.now at line.now work.old.made result work.new.made }
{
    let answered = match defined_answered(alloc, table, line) {
        Ok(answered) => answered,
        Err(refusal) => return Err(stands(at, refusal)),
    };
    let replaced = expand(alloc, table, &answered, work)?;
    match judge_replaced(alloc, &replaced) {
        Ok(holds) => Ok(holds),
        Err(refusal) => Err(stands(at, refusal)),
    }
}

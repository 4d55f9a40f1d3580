//! Reads a condition from its tokens, and computes it as it reads.
ghost use Rattle.std.specs.Prelude.{◌≡◌, Some};
ghost use Rattle.model_conditions.specs.declared.conditions.ConditionToken.TheVariants as token;
ghost use Rattle.model_conditions.specs.ConditionValues as values;
ghost use Rattle.model_conditions.specs.apparatus.ConditionReader as reader;
ghost use Rattle.model_conditions.specs.ConditionReading.{computed, concluded};
ghost use Rattle.model_conditions.specs.Conditions.{judged};
ghost use Rattle.model_conditions.specs.declared.conditions.ConditionRule.TheVariants as condition_rule;
ghost use Rattle.pp_conditions.specs.declared.errors.Refusal.TheVariants as refusal;
ghost use Rattle.pp_conditions.specs.Answers.{Gives};
ghost use Rattle.pp_conditions.specs.Shown as shown;
ghost use Rattle.pp_conditions.specs.Progress.{Goes};

use crate::errors::Refusal;
use crate::frames::{CONDITIONAL, Frame, LOGICAL_OR, fill, kind_of};
use crate::operators::is_nonzero;
use crate::values::Part;
use cake_base::Stack;
use model_conditions::conditions::{ConditionRule, ConditionToken, Infix, Prefix};
use model_types::numbers::BinOp;
use std::alloc::Global;

/// The parts that wait, and the operand behind which reading stands; none where one has to come.
#[derive(Drop)]
pub struct Reading {
    frames: Stack<Frame>,
    operand: Option<Part>,
}

/// The refusal of a token that has no place.
fn misplaced() -> Refusal
    ensures { result ≡ refusal.Broken condition_rule.Malformed }
{
    Refusal::Broken(ConditionRule::Malformed)
}

/// One more part that waits.
fn waiting(frames: Stack<Frame>, frame: Frame) -> Result<Reading, Refusal>
    ensures { Goes (reader.waiting (shown.one frame) (shown.all frames)) result }
{
    let mut frames = frames;
    frames.push(frame)?;
    Ok(Reading {
        frames,
        operand: None,
    })
}

fn standing(frames: Stack<Frame>, operand: Part) -> Reading
    ensures { result ≡ record { frames = frames; operand = Some operand } }
{
    Reading {
        frames,
        operand: Some(operand),
    }
}

/// `+` or `-` where an operand has to come.
fn signed(frames: Stack<Frame>, op: Infix) -> Result<Reading, Refusal>
    ensures { Goes (reader.signed op (shown.all frames)) result }
{
    match op {
        Infix::Integer(BinOp::Add) => waiting(frames, Frame::Prefix(Prefix::Plus)),
        Infix::Integer(BinOp::Sub) => waiting(frames, Frame::Prefix(Prefix::Minus)),
        _ => Err(misplaced()),
    }
}

/// A token where an operand has to come.
fn begun(frames: Stack<Frame>, token: ConditionToken) -> Result<Reading, Refusal>
    ensures { Goes (reader.begun computed (shown.all frames) token) result }
{
    match token {
        ConditionToken::Constant(n) => Ok(standing(frames, Part::constant(n))),
        ConditionToken::Open => waiting(frames, Frame::Parenthesis),
        ConditionToken::Complement => waiting(frames, Frame::Prefix(Prefix::Complement)),
        ConditionToken::Not => waiting(frames, Frame::Prefix(Prefix::Not)),
        ConditionToken::Operator(op) => signed(frames, op),
        ConditionToken::Close => Err(misplaced()),
        ConditionToken::Question => Err(misplaced()),
        ConditionToken::Colon => Err(misplaced()),
    }
}

/// A binary operator behind an operand.
fn operator(frames: Stack<Frame>, operand: Part, op: Infix) -> Result<Reading, Refusal>
    ensures { Goes (reader.continued computed (shown.all frames) operand (token.Operator op)) result }
{
    let mut frames = frames;
    let left = fill(&mut frames, operand, kind_of(op));
    waiting(frames, Frame::Left(op, left))
}

/// A `?` behind an operand.
fn question(frames: Stack<Frame>, operand: Part) -> Result<Reading, Refusal>
    ensures { Goes (reader.continued computed (shown.all frames) operand token.Question) result }
{
    let mut frames = frames;
    let test = fill(&mut frames, operand, LOGICAL_OR);
    waiting(frames, Frame::Question(test))
}

/// A `:` behind an operand.
fn colon(frames: Stack<Frame>, operand: Part) -> Result<Reading, Refusal>
    ensures { Goes (reader.continued computed (shown.all frames) operand token.Colon) result }
{
    let mut frames = frames;
    let first = fill(&mut frames, operand, CONDITIONAL);
    match frames.pop() {
        Some(Frame::Question(test)) => waiting(frames, Frame::Colon(test, first)),
        _ => Err(misplaced()),
    }
}

/// A closing parenthesis behind an operand.
fn close(frames: Stack<Frame>, operand: Part) -> Result<Reading, Refusal>
    ensures { Goes (reader.continued computed (shown.all frames) operand token.Close) result }
{
    let mut frames = frames;
    let inner = fill(&mut frames, operand, CONDITIONAL);
    match frames.pop() {
        Some(Frame::Parenthesis) => Ok(standing(frames, inner)),
        _ => Err(misplaced()),
    }
}

/// A token behind an operand.
fn continued(frames: Stack<Frame>, operand: Part, token: ConditionToken) -> Result<Reading, Refusal>
    ensures { Goes (reader.continued computed (shown.all frames) operand token) result }
{
    match token {
        ConditionToken::Operator(op) => operator(frames, operand, op),
        ConditionToken::Question => question(frames, operand),
        ConditionToken::Colon => colon(frames, operand),
        ConditionToken::Close => close(frames, operand),
        ConditionToken::Constant(_) => Err(misplaced()),
        ConditionToken::Open => Err(misplaced()),
        ConditionToken::Complement => Err(misplaced()),
        ConditionToken::Not => Err(misplaced()),
    }
}

/// Reads one token.
fn next(reading: Reading, token: ConditionToken) -> Result<Reading, Refusal>
    ensures { Goes (reader.next computed reading.operand (shown.all reading.frames) token) result }
{
    let Reading { frames, operand } = reading;
    match operand {
        None => begun(frames, token),
        Some(part) => continued(frames, part, token),
    }
}

/// Whether a part holds; P15 where it is undefined.
fn holds(part: &Part) -> Result<bool, ConditionRule>
    ensures { result ≡ values.holds part.now.value }
{
    match part.value() {
        None => Err(ConditionRule::Undefined),
        Some(value) => Ok(is_nonzero(value)),
    }
}

/// Whether what was read holds, where the tokens end.
fn ended(reading: Reading) -> Result<bool, ConditionRule>
    ensures { result ≡ concluded (reader.ended computed (shown.all reading.frames) reading.operand) }
{
    let Reading {
        mut frames,
        operand,
    } = reading;
    match operand {
        None => Err(ConditionRule::Malformed),
        Some(part) => {
            let whole = fill(&mut frames, part, CONDITIONAL);
            match frames.pop() {
                None => holds(&whole),
                Some(_) => Err(ConditionRule::Malformed),
            }
        }
    }
}

/// Whether the condition holds that the tokens are (ISO/IEC 9899:2024, 6.6): P14 where they are none,
/// and P15 where an operation that is evaluated is undefined.
#[tactic(auto, using(crate::proofs::ReaderLaws::judged_is))]
pub fn judge(alloc: Global, tokens: &[ConditionToken]) -> Result<bool, Refusal>
    ensures { Gives result (judged tokens.now) }
{
    let mut reading = Reading {
        frames: Stack::new(alloc),
        operand: None,
    };
    for token in tokens {
        reading = next(reading, *token)?;
    }
    match ended(reading) {
        Ok(holds) => Ok(holds),
        Err(rule) => Err(Refusal::Broken(rule)),
    }
}

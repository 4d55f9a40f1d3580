//! The punctuators of conditions.
ghost use Rattle.std.specs.Prelude.{◌≡◌, map};
ghost use Rattle.model_conditions.specs.ConditionTokens as spec;

use model_conditions::conditions::{ConditionRule, ConditionToken, Infix};
use model_types::numbers::BinOp;
use model_types::operators::LogicOp;

const SIGNS: [(&[u8], ConditionToken); 24] = [
    (b"(", ConditionToken::Open),
    (b")", ConditionToken::Close),
    (b"?", ConditionToken::Question),
    (b":", ConditionToken::Colon),
    (b"~", ConditionToken::Complement),
    (b"!", ConditionToken::Not),
    (b"*", ConditionToken::Operator(Infix::Integer(BinOp::Mul))),
    (b"/", ConditionToken::Operator(Infix::Integer(BinOp::Div))),
    (b"%", ConditionToken::Operator(Infix::Integer(BinOp::Rem))),
    (b"+", ConditionToken::Operator(Infix::Integer(BinOp::Add))),
    (b"-", ConditionToken::Operator(Infix::Integer(BinOp::Sub))),
    (
        b"<<",
        ConditionToken::Operator(Infix::Integer(BinOp::ShiftLeft)),
    ),
    (
        b">>",
        ConditionToken::Operator(Infix::Integer(BinOp::ShiftRight)),
    ),
    (b"<", ConditionToken::Operator(Infix::Integer(BinOp::Less))),
    (
        b">",
        ConditionToken::Operator(Infix::Integer(BinOp::Greater)),
    ),
    (
        b"<=",
        ConditionToken::Operator(Infix::Integer(BinOp::LessEqual)),
    ),
    (
        b">=",
        ConditionToken::Operator(Infix::Integer(BinOp::GreaterEqual)),
    ),
    (
        b"==",
        ConditionToken::Operator(Infix::Integer(BinOp::Equal)),
    ),
    (
        b"!=",
        ConditionToken::Operator(Infix::Integer(BinOp::NotEqual)),
    ),
    (
        b"&",
        ConditionToken::Operator(Infix::Integer(BinOp::BitAnd)),
    ),
    (
        b"^",
        ConditionToken::Operator(Infix::Integer(BinOp::BitXor)),
    ),
    (b"|", ConditionToken::Operator(Infix::Integer(BinOp::BitOr))),
    (b"&&", ConditionToken::Operator(Infix::Logic(LogicOp::And))),
    (b"||", ConditionToken::Operator(Infix::Logic(LogicOp::Or))),
];

fn sign_in(table: &[(&[u8], ConditionToken)], text: &[u8]) -> Result<ConditionToken, ConditionRule>
    ensures { result ≡ spec.sign_in (map (λ s. (s.0.now, s.1)) table.now) text.now }
{
    for (sign, token) in table {
        if text == *sign {
            return Ok(*token);
        }
    }
    Err(ConditionRule::Malformed)
}

/// The token of a condition that a punctuator is; P14 where it is none.
#[tactic(auto, unfolding(model_conditions::specs::ConditionTokens::of_sign))]
pub fn of_sign(text: &[u8]) -> Result<ConditionToken, ConditionRule>
    ensures { result ≡ spec.of_sign text.now }
{
    sign_in(&SIGNS, text)
}

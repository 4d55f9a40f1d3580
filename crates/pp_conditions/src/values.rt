//! Values of the parts of a condition.
ghost use Rattle.std.specs.Prelude.{◌≡◌, IsTrue, None};
ghost use Rattle.model_conditions.specs.ConditionValues as spec;
ghost use Rattle.model_types.specs.Operations as operations;
ghost use Rattle.pp_conditions.specs.Parts.{Fitting};

use c_types::{Basic, Const, convert};
use model_conditions::conditions::WideNumber;
use std::marker::Model;

/// The type of 64 bits in which a part computes.
pub fn wide(unsigned: bool) -> Basic
    ensures { result ≡ spec.wide unsigned }
{
    if unsigned {
        Basic::UnsignedLong
    } else {
        Basic::Long
    }
}

/// A value as a constant of its type.
pub fn typed(unsigned: bool, value: i128) -> Const
    requires { IsTrue (operations.fits (spec.wide unsigned) value) }
    ensures value { result.value ≡ value }
    ensures basic { result.basic ≡ spec.wide unsigned }
{
    Const {
        value,
        basic: wide(unsigned),
    }
}

/// What a part of a condition computes to: whether it is unsigned, which is known without its value,
/// and its value, which it hasn't where it is undefined. Contracts see the record of both.
#[derive(Drop)]
pub struct Part {
    unsigned: bool,
    value: Option<i128>,
}

impl Model for Part {
    ghost use Rattle.model_conditions.specs.ConditionValues.{Valued};
    ghost use Rattle.pp_conditions.specs.Parts.{Fitting};

    ghost Value = { Valued };

    ghost view = { λ p. record { unsigned = p.unsigned; value = p.value } };

    ghost invariant = { λ p. Fitting p.unsigned p.value };
}

impl Part {
    /// A part of that type and value.
    pub fn new(unsigned: bool, value: Option<i128>) -> Part
        requires { Fitting unsigned value }
        ensures { result ≡ record { unsigned = unsigned; value = value } }
    {
        Part { unsigned, value }
    }

    /// A part that is undefined.
    pub fn undefined(unsigned: bool) -> Part
        ensures { result ≡ record { unsigned = unsigned; value = None } }
    {
        Part {
            unsigned,
            value: None,
        }
    }

    /// A constant.
    pub fn constant(n: WideNumber) -> Part
        ensures { result ≡ spec.of_constant n }
    {
        Part {
            unsigned: n.unsigned,
            value: Some(convert(n.value, wide(n.unsigned))),
        }
    }

    /// Whether it is unsigned.
    pub fn is_unsigned(&self) -> bool
        ensures { result ≡ self.now.unsigned }
    {
        self.unsigned
    }

    /// Its value; none where it is undefined.
    pub fn value(&self) -> Option<i128>
        ensures value { result ≡ self.now.value }
        ensures fits { Fitting self.now.unsigned result }
    {
        self.value
    }
}

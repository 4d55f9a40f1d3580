//! The sorts of tokens that the reader of a unit tells apart.
ghost use Rattle.std.specs.Prelude.{◌≡◌};
ghost use Rattle.cake_cli.specs.Sorts as spec;
ghost use Rattle.cake_cli.specs.SortViews.{sort_view};

use crate::constants::IntConstant;
use c_tokens::{CKind, CTok};
use model_types::numbers::{Basic, BinOp, Const};

// Numbers of words and punctuators in the vocabulary.
const VOID: u32 = 11;

const INT: u32 = 14;

const RETURN: u32 = 39;

const SEMICOLON: u32 = 2;

const OPEN_PARENTHESIS: u32 = 3;

const CLOSE_PARENTHESIS: u32 = 4;

const OPEN_BRACE: u32 = 7;

const CLOSE_BRACE: u32 = 8;

const STAR: u32 = 11;

const PLUS: u32 = 38;

const MINUS: u32 = 39;

/// The sort of a token.
#[derive(Clone, Copy, Debug)]
pub enum Sort {
    IntWord,
    MainName,
    OpenParenthesis,
    VoidWord,
    CloseParenthesis,
    OpenBrace,
    ReturnWord,
    Constant(IntConstant),
    Sign(BinOp),
    Semicolon,
    CloseBrace,
    Other,
}

fn word_sort(number: u32) -> Sort
    ensures { sort_view result ≡ spec.word_sort number }
{
    if number == INT {
        Sort::IntWord
    } else if number == VOID {
        Sort::VoidWord
    } else if number == RETURN {
        Sort::ReturnWord
    } else {
        Sort::Other
    }
}

fn name_sort(name: &[u8]) -> Sort
    ensures { sort_view result ≡ spec.name_sort name.now }
{
    if name == b"main".as_slice() {
        Sort::MainName
    } else {
        Sort::Other
    }
}

fn int_sort(constant: Const) -> Sort
    requires { constant.basic ≡ Basic.Int }
    ensures { sort_view result ≡ spec.int_sort constant.value }
{
    if constant.value < 0 {
        Sort::Other
    } else {
        Sort::Constant(IntConstant {
            value: constant.value as u32,
        })
    }
}

fn constant_sort(constant: Const) -> Sort
    ensures { sort_view result ≡ spec.constant_sort constant.basic constant.value }
{
    match constant.basic {
        Basic::Int => int_sort(constant),
        Basic::Bool => Sort::Other,
        Basic::Char => Sort::Other,
        Basic::SignedChar => Sort::Other,
        Basic::UnsignedChar => Sort::Other,
        Basic::Short => Sort::Other,
        Basic::UnsignedShort => Sort::Other,
        Basic::Unsigned => Sort::Other,
        Basic::Long => Sort::Other,
        Basic::UnsignedLong => Sort::Other,
        Basic::LongLong => Sort::Other,
        Basic::UnsignedLongLong => Sort::Other,
    }
}

fn sign_sort(number: u32) -> Sort
    ensures { sort_view result ≡ spec.sign_sort number }
{
    if number == STAR {
        Sort::Sign(BinOp::Mul)
    } else if number == PLUS {
        Sort::Sign(BinOp::Add)
    } else if number == MINUS {
        Sort::Sign(BinOp::Sub)
    } else {
        Sort::Other
    }
}

fn punctuator_sort(number: u32) -> Sort
    ensures { sort_view result ≡ spec.punctuator_sort number }
{
    if number == OPEN_PARENTHESIS {
        Sort::OpenParenthesis
    } else if number == CLOSE_PARENTHESIS {
        Sort::CloseParenthesis
    } else if number == OPEN_BRACE {
        Sort::OpenBrace
    } else if number == CLOSE_BRACE {
        Sort::CloseBrace
    } else if number == SEMICOLON {
        Sort::Semicolon
    } else {
        sign_sort(number)
    }
}

/// The sort of a token of C; words and punctuators by their numbers in the vocabulary.
pub fn sort_of(token: &CTok) -> Sort
    ensures { sort_view result ≡ spec.sort_of token.now.kind }
{
    match &token.kind {
        CKind::Word(number) => word_sort(*number),
        CKind::Name(name) => name_sort(name.as_slice()),
        CKind::Integer(constant) => constant_sort(*constant),
        CKind::Text(_) => Sort::Other,
        CKind::Punct(number) => punctuator_sort(*number),
    }
}

//! Prints conversions of integers, usual conversions, and operations at their edges, a line each.
//!
//! `stdout` beside this crate is what a C compiler gives for the same lines; `tests/oracles/operations.py`
//! makes it.
#![tactic(auto)]

use c_types::{Basic, BinOp, Const, OpFault, common, const_op, convert};
use std::alloc::{AllocError, Global};
use std::io;

const TYPES: [Basic; 12] = [
    Basic::Bool,
    Basic::Char,
    Basic::SignedChar,
    Basic::UnsignedChar,
    Basic::Short,
    Basic::UnsignedShort,
    Basic::Int,
    Basic::Unsigned,
    Basic::Long,
    Basic::UnsignedLong,
    Basic::LongLong,
    Basic::UnsignedLongLong,
];

const OPERATORS: [BinOp; 16] = [
    BinOp::Mul,
    BinOp::Div,
    BinOp::Rem,
    BinOp::Add,
    BinOp::Sub,
    BinOp::ShiftLeft,
    BinOp::ShiftRight,
    BinOp::Less,
    BinOp::Greater,
    BinOp::LessEqual,
    BinOp::GreaterEqual,
    BinOp::Equal,
    BinOp::NotEqual,
    BinOp::BitAnd,
    BinOp::BitXor,
    BinOp::BitOr,
];

const VALUES: [i128; 24] = [
    0,
    1,
    2,
    5,
    -1,
    -128,
    -129,
    127,
    128,
    200,
    255,
    256,
    300,
    -32_769,
    32_768,
    65_536,
    -2_147_483_648,
    2_147_483_647,
    2_147_483_648,
    4_294_967_295,
    4_294_967_296,
    -9_223_372_036_854_775_808,
    9_223_372_036_854_775_807,
    18_446_744_073_709_551_615,
];

/// Types that are tried together with each operator, and their values.
const PAIRS: [(Basic, Basic); 11] = [
    (Basic::Bool, Basic::Bool),
    (Basic::SignedChar, Basic::UnsignedShort),
    (Basic::Int, Basic::Int),
    (Basic::Unsigned, Basic::Unsigned),
    (Basic::Long, Basic::Long),
    (Basic::UnsignedLong, Basic::UnsignedLong),
    (Basic::Int, Basic::Unsigned),
    (Basic::Unsigned, Basic::Int),
    (Basic::Long, Basic::Unsigned),
    (Basic::Int, Basic::UnsignedLong),
    (Basic::LongLong, Basic::UnsignedLong),
];

const EDGES: [i128; 5] = [0, -1, 31, -9_223_372_036_854_775_808, 2_147_483_648];

fn type_name(basic: Basic) -> &'static str {
    match basic {
        Basic::Bool => "bool",
        Basic::Char => "char",
        Basic::SignedChar => "signed char",
        Basic::UnsignedChar => "unsigned char",
        Basic::Short => "short",
        Basic::UnsignedShort => "unsigned short",
        Basic::Int => "int",
        Basic::Unsigned => "unsigned",
        Basic::Long => "long",
        Basic::UnsignedLong => "unsigned long",
        Basic::LongLong => "long long",
        Basic::UnsignedLongLong => "unsigned long long",
    }
}

fn operator_name(op: BinOp) -> &'static str {
    match op {
        BinOp::Mul => "*",
        BinOp::Div => "/",
        BinOp::Rem => "%",
        BinOp::Add => "+",
        BinOp::Sub => "-",
        BinOp::ShiftLeft => "<<",
        BinOp::ShiftRight => ">>",
        BinOp::Less => "<",
        BinOp::Greater => ">",
        BinOp::LessEqual => "<=",
        BinOp::GreaterEqual => ">=",
        BinOp::Equal => "==",
        BinOp::NotEqual => "!=",
        BinOp::BitAnd => "&",
        BinOp::BitXor => "^",
        BinOp::BitOr => "|",
    }
}

fn fault_name(fault: OpFault) -> &'static str {
    match fault {
        OpFault::Overflow => "Overflow",
        OpFault::ZeroDivisor => "ZeroDivisor",
        OpFault::BadShift => "BadShift",
    }
}

fn constant(value: i128, basic: Basic) -> Const {
    Const {
        value: convert(value, basic),
        basic,
    }
}

fn operation_line(
    alloc: Global,
    op: BinOp,
    left: Const,
    right: Const,
) -> Result<String, AllocError> {
    let operator = operator_name(op);
    let left_type = type_name(left.basic);
    let right_type = type_name(right.basic);
    let left_value = left.value;
    let right_value = right.value;
    match const_op(op, left, right) {
        Ok(made) => {
            let made_type = type_name(made.basic);
            let made_value = made.value;
            format!(in alloc;
                "({left_type}) {left_value} {operator} ({right_type}) {right_value} = ({made_type}) {made_value}"
            )
        }
        Err(fault) => {
            let name = fault_name(fault);
            format!(in alloc;
                "({left_type}) {left_value} {operator} ({right_type}) {right_value} = {name}"
            )
        }
    }
}

fn main(rt: HostRuntime) -> io::Result<()> {
    let alloc = rt.alloc();
    for to in TYPES {
        let name = type_name(to);
        for value in VALUES {
            let converted = convert(value, to);
            println!(rt; "({name}) {value} = {converted}")?;
        }
    }
    for left in TYPES {
        for right in TYPES {
            println!(rt;
                "{} with {} is {}",
                type_name(left),
                type_name(right),
                type_name(common(left, right))
            )?;
        }
    }
    for op in OPERATORS {
        for (left, right) in PAIRS {
            for a in EDGES {
                for b in EDGES {
                    let line = operation_line(alloc, op, constant(a, left), constant(b, right))?;
                    println!(rt; "{line}")?;
                }
            }
        }
    }
    Ok(())
}

//! The rules that calls of macros break, by their numbers in the family P.

pub const NO_SINGLE_TOKEN: u32 = 5;

pub const WRONG_NUMBER_OF_ARGUMENTS: u32 = 6;

pub const CALL_NOT_ENDED: u32 = 7;

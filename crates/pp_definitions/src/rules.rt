//! The rules that definitions of macros break, by their numbers in the family P.

pub const REDEFINED: u32 = 1;

pub const MALFORMED_DEFINITION: u32 = 2;

pub const LONE_HASH: u32 = 3;

pub const PASTE_AT_EDGE: u32 = 4;

pub const MISPLACED_VARIABLE_ARGUMENTS: u32 = 8;

pub const RESERVED_NAME: u32 = 9;

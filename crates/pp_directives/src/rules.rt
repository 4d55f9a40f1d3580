//! The rules that directives break, by their numbers in the family P, and the limits of preprocessing.

pub const RESERVED_NAME: u32 = 9;

pub const NO_SUCH_FILE: u32 = 10;

pub const ERROR_DIRECTIVE: u32 = 11;

pub const NO_OPEN_CONDITIONAL: u32 = 12;

pub const CONDITIONAL_NOT_ENDED: u32 = 13;

pub const UNKNOWN_DIRECTIVE: u32 = 16;

pub const MALFORMED_INCLUDE: u32 = 17;

pub const MALFORMED_PRAGMA: u32 = 18;

pub const NO_MACRO_NAME: u32 = 19;

pub const LEFT_OUT: u32 = 20;

pub const TOO_MANY_BYTES: u32 = 1;

pub const TOO_MANY_FILES: u32 = 2;

pub const TOO_MANY_LEVELS: u32 = 3;

pub const TOO_MANY_TOKENS: u32 = 5;

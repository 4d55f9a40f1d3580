//! The definitions of scopes: what a name is declared as, to what a use is bound, and which rule a declaration
//! breaks (ISO/IEC 9899:2024, 6.2.1 to 6.2.3, 6.7).

pub mod declarations;

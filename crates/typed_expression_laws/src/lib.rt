//! Laws of checking: where what is declared is sound, whole expressions are typed, and the types that type names and specifiers give
//! are possible (ISO/IEC 9899:2024, 6.5, 6.7); and a core is in order.
#![tactic(auto)]

pub mod expressions;
pub mod order;
pub mod types;

//! Laws of checking: what names, members, tags and typedef names give is typed, and what is declared behind them is sound
//! (ISO/IEC 9899:2024, 6.2.1, 6.5.2, 6.5.3.4, 6.7.3.2, 6.7.9).
#![tactic(auto)]

pub mod names;
pub mod types;

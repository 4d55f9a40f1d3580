//! The definition of checking: what a tree of the grammar means, and which constraint it breaks first
//! (ISO/IEC 9899:2024, 6.5 to 6.9).
#![tactic(auto)]

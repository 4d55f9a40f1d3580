//! The constraints that a unit breaks, all of them, as a relation of places and rules, and the one that comes first
//! (ISO/IEC 9899:2024, 6.5 to 6.9).
#![tactic(auto)]

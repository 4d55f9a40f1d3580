//! The C89 program of a unit, as functions of its typed core (ISO/IEC 9899:2024, 6.5 to 6.9; ISO/IEC 9899:1990, 6.3 to 6.7).
#![tactic(auto)]

//! The core of a unit and the program of a text, and what a typed core is.
#![tactic(auto)]

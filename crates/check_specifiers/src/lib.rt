//! The types of specifiers and declarators (ISO/IEC 9899:2024, 6.7.1 to 6.7.7), apart from the expressions in them.
#![tactic(auto)]

mod combinations;
mod contexts;
mod declaration_lists;
mod derivations;
mod enumerations;
mod forms;
mod keywords;
mod nearest;
mod qualifiers;
mod specified;
mod whole_lists;
mod word_faults;
mod words;

pub use combinations::combination_fault;
pub use contexts::{Context, takes_word};
pub use declaration_lists::{declaration_specifiers, declare_function};
pub use derivations::{Typing, array_of, faulty_array_of, function_of, pointed};
pub use enumerations::{
    Enumeration, enum_type, enumerator_basic, enumerator_type, range_fault, typeof_type,
};
pub use keywords::type_by_words;
pub use nearest::{
    declares_function, is_function_declarator, is_variadic_declarator, own_parameter_count,
};
pub use qualifiers::{made_const, meeting_fault, qualified, qualifier_fault, with_all};
pub use specified::{Specified, specified_with, specifiers, type_or_words};
pub use whole_lists::{qualifiers_of, words_fault};
pub use word_faults::{inline_fault, missing_type, storage_fault};
pub use words::{Storage, has_type_specifier, is_type_specifier, place_of_word, storage_of};

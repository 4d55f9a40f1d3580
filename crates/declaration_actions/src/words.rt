//! The words of specifiers by the numbers of their kinds (ISO/IEC 9899:2024, 6.7.2 to 6.7.5).
ghost use Rattle.std.specs.Prelude.{◌≡◌, ◌==◌, if◌then◌else◌};
ghost use Rattle.model_grammar.specs.declared.syntax.FunctionWord.TheVariants as function;
ghost use Rattle.model_grammar.specs.SyntaxDeclarationActions as d;
ghost use Rattle.model_grammar.specs.Terminals as k;

use model_grammar::syntax::{FunctionWord, QualifierWord, StorageWord, TypeWord, TypeofWord};
use syntax_meanings::kinds;

/// The storage-class specifier of this kind.
pub(crate) fn storage_word(kind: u8) -> StorageWord
    ensures { result ≡ d.storage_word kind }
{
    match kind {
        kinds::TYPEDEF => StorageWord::Typedef,
        kinds::EXTERN => StorageWord::Extern,
        kinds::STATIC => StorageWord::Static,
        kinds::AUTO => StorageWord::Auto,
        kinds::REGISTER => StorageWord::Register,
        _ => StorageWord::Constexpr,
    }
}

/// The type specifier of this kind.
pub(crate) fn type_word(kind: u8) -> TypeWord
    ensures { result ≡ d.type_word kind }
{
    match kind {
        kinds::VOID => TypeWord::Void,
        kinds::CHAR => TypeWord::Char,
        kinds::SHORT => TypeWord::Short,
        kinds::INT => TypeWord::Int,
        kinds::LONG => TypeWord::Long,
        kinds::SIGNED => TypeWord::Signed,
        kinds::UNSIGNED => TypeWord::Unsigned,
        _ => TypeWord::Bool,
    }
}

/// The qualifier of this kind.
pub(crate) fn qualifier_word(kind: u8) -> QualifierWord
    ensures { result ≡ d.qualifier_word kind }
{
    match kind {
        kinds::CONST => QualifierWord::Const,
        kinds::RESTRICT => QualifierWord::Restrict,
        kinds::OWNER => QualifierWord::Owner,
        kinds::VIEW => QualifierWord::View,
        _ => QualifierWord::Opt,
    }
}

/// `typeof` or `typeof_unqual`, by its kind.
pub(crate) fn typeof_word(kind: u8) -> TypeofWord
    ensures { result ≡ d.typeof_word kind }
{
    match kind {
        kinds::TYPEOF => TypeofWord::Typeof,
        _ => TypeofWord::TypeofUnqual,
    }
}

/// The function specifier of this kind.
pub(crate) fn function_word(kind: u8) -> FunctionWord
    ensures { result ≡ (if kind == k.Inline then function.Inline else function.Noreturn) }
{
    match kind {
        kinds::INLINE => FunctionWord::Inline,
        _ => FunctionWord::Noreturn,
    }
}

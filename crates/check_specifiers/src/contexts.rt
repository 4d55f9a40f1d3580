//! Where a list of specifiers stands, and the words of storage that it may have there (ISO/IEC 9899:2024, 6.7.2, 6.7.7.4,
//! 6.8.5, 6.8.6.4, 6.9.1).
ghost use Rattle.std.specs.Prelude.{◌≡◌};
ghost use Rattle.model_checking.specs.DeclarationContexts as m;
ghost use Rattle.check_specifiers.specs.Contexts.{context_of};

use model_grammar::syntax::StorageWord;

/// Where a list of specifiers stands.
#[derive(Clone, Copy)]
pub enum Context {
    /// In a declaration at file scope.
    AtFile,
    InBlock,
    /// In the head of a `for`.
    InFor,
    /// In the head of an `if`.
    InIf,
    /// In the definition of a function.
    OfDefinition,
    OfParameter,
    OfMember,
    OfTypeName,
}

fn is_file_word(infers: bool, word: StorageWord) -> bool
    ensures { result ≡ m.is_file_word infers word }
{
    match word {
        StorageWord::Register => false,
        StorageWord::Auto => infers,
        StorageWord::Typedef => true,
        StorageWord::Extern => true,
        StorageWord::Static => true,
        StorageWord::Constexpr => true,
    }
}

fn is_head_word(word: StorageWord) -> bool
    ensures { result ≡ m.is_head_word word }
{
    match word {
        StorageWord::Typedef => false,
        StorageWord::Extern => false,
        StorageWord::Static => false,
        StorageWord::Auto => true,
        StorageWord::Register => true,
        StorageWord::Constexpr => true,
    }
}

fn is_register(word: StorageWord) -> bool
    ensures { result ≡ m.is_register word }
{
    match word {
        StorageWord::Register => true,
        StorageWord::Typedef => false,
        StorageWord::Extern => false,
        StorageWord::Static => false,
        StorageWord::Auto => false,
        StorageWord::Constexpr => false,
    }
}

/// Whether a list may have this word of storage where it stands; `infers` says that it has no type specifier.
pub fn takes_word(context: Context, infers: bool, word: StorageWord) -> bool
    ensures { result ≡ m.takes_word (context_of context) infers word }
{
    match context {
        Context::AtFile => is_file_word(infers, word),
        Context::InBlock => true,
        Context::InFor => is_head_word(word),
        Context::InIf => is_head_word(word),
        Context::OfDefinition => is_file_word(infers, word),
        Context::OfParameter => is_register(word),
        Context::OfMember => false,
        Context::OfTypeName => false,
    }
}

//! The types that keywords name, in any order (ISO/IEC 9899:2024, 6.7.3.1).
ghost use Rattle.std.specs.Prelude.{◌≡◌, is_some};
ghost use Rattle.std.specs.Option.{option_map};
ghost use Rattle.c_types.specs.Forms.{form_of};
ghost use Rattle.c_tree.specs.SyntaxViews.{spec_of, specs_items};
ghost use Rattle.model_checking.specs.Words as w;
ghost use Rattle.model_checking.specs.TypeKeywords as m;
ghost use Rattle.check_specifiers.specs.KeywordCounts as k;

use c_tree::Spec;
use c_types::{Basic, TypeForm};
use model_grammar::syntax::TypeWord;

/// How often a keyword stands in a list, as far as it may stand there.
#[derive(Clone, Copy)]
pub(crate) enum Times {
    Never,
    Once,
    Twice,
    TooOften,
}

impl Times {
    fn more(self) -> Times
        ensures { result ≡ k.more self }
    {
        match self {
            Times::Never => Times::Once,
            Times::Once => Times::Twice,
            Times::Twice => Times::TooOften,
            Times::TooOften => Times::TooOften,
        }
    }
}

/// How often each keyword of a type stands in a list.
#[derive(Clone, Copy)]
pub(crate) struct Keywords {
    voids: Times,
    bools: Times,
    chars: Times,
    shorts: Times,
    ints: Times,
    longs: Times,
    signeds: Times,
    unsigneds: Times,
}

const NO_KEYWORDS: Keywords = Keywords {
    voids: Times::Never,
    bools: Times::Never,
    chars: Times::Never,
    shorts: Times::Never,
    ints: Times::Never,
    longs: Times::Never,
    signeds: Times::Never,
    unsigneds: Times::Never,
};

/// What keywords say of the length of an integer type.
#[derive(Clone, Copy)]
pub(crate) enum Length {
    Char,
    Short,
    /// Nothing, and `int` stands there.
    Int,
    /// Nothing.
    Unwritten,
    Long,
    LongLong,
}

impl Keywords {
    /// With one keyword more.
    pub(crate) fn with(self, word: TypeWord) -> Keywords
        ensures { result ≡ k.with_keyword word self }
    {
        match word {
            TypeWord::Void => Keywords {
                voids: self.voids.more(),
                ..self
            },
            TypeWord::Char => Keywords {
                chars: self.chars.more(),
                ..self
            },
            TypeWord::Short => Keywords {
                shorts: self.shorts.more(),
                ..self
            },
            TypeWord::Int => Keywords {
                ints: self.ints.more(),
                ..self
            },
            TypeWord::Long => Keywords {
                longs: self.longs.more(),
                ..self
            },
            TypeWord::Signed => Keywords {
                signeds: self.signeds.more(),
                ..self
            },
            TypeWord::Unsigned => Keywords {
                unsigneds: self.unsigneds.more(),
                ..self
            },
            TypeWord::Bool => Keywords {
                bools: self.bools.more(),
                ..self
            },
        }
    }

    /// With a specifier's keyword, where it is one.
    fn with_spec(self, spec: &Spec) -> Keywords
        ensures { result ≡ k.with_word (w.word_of (spec_of spec.now)) self }
    {
        match spec {
            Spec::Keyword { word, .. } => self.with(*word),
            Spec::Storage { .. } => self,
            Spec::Function { .. } => self,
            Spec::Qualifier(_) => self,
            Spec::StructTag { .. } => self,
            Spec::Struct { .. } => self,
            Spec::EnumTag { .. } => self,
            Spec::Enum { .. } => self,
            Spec::TypedefName(_) => self,
            Spec::TypeofExpr { .. } => self,
            Spec::TypeofType { .. } => self,
        }
    }

    /// Those of a list.
    pub(crate) fn of(specs: &[Spec]) -> Keywords
        ensures { result ≡ k.keywords_in (w.type_words (w.words_of (specs_items specs.now))) }
    {
        let mut keywords = NO_KEYWORDS;
        let mut at = specs.len();
        while at > 0 {
            at -= 1;
            keywords = keywords.with_spec(&specs[at]);
        }
        keywords
    }

    /// What they say of a length, where they combine.
    fn length(self) -> Option<Length>
        ensures { result ≡ k.length_of self.chars self.shorts self.longs self.ints }
    {
        match (self.chars, self.shorts, self.longs) {
            (Times::Never, Times::Never, Times::Never) => {
                with_int(self.ints, Length::Unwritten, Length::Int)
            }
            (Times::Never, Times::Never, Times::Once) => {
                with_int(self.ints, Length::Long, Length::Long)
            }
            (Times::Never, Times::Never, Times::Twice) => {
                with_int(self.ints, Length::LongLong, Length::LongLong)
            }
            (Times::Never, Times::Once, Times::Never) => {
                with_int(self.ints, Length::Short, Length::Short)
            }
            (Times::Once, Times::Never, Times::Never) => without_int(self.ints),
            _ => None,
        }
    }

    /// The integer type that they name, `bool` aside.
    fn integer_type(self) -> Option<Basic>
        ensures { result ≡ k.integer_type self.signeds self.unsigneds (k.length_of self.chars self.shorts self.longs self.ints) }
    {
        match (self.signeds, self.unsigneds) {
            (Times::Never, Times::Never) => plain_type(self.length()?),
            (Times::Once, Times::Never) => Some(signed_type(self.length()?)),
            (Times::Never, Times::Once) => Some(unsigned_type(self.length()?)),
            _ => None,
        }
    }

    /// The form, where there is nothing but `void` or `bool`.
    fn alone(self, form: TypeForm) -> Option<TypeForm>
        ensures { option_map form_of result ≡ k.alone self.signeds self.unsigneds self.chars self.shorts self.longs self.ints (form_of form) }
    {
        match (
            self.signeds,
            self.unsigneds,
            self.chars,
            self.shorts,
            self.longs,
            self.ints,
        ) {
            (Times::Never, Times::Never, Times::Never, Times::Never, Times::Never, Times::Never) =>
                Some(form),
            _ => {
                drop(form);
                None
            }
        }
    }

    /// The type that they name, where they name one.
    fn named(self) -> Option<TypeForm>
        ensures { option_map form_of result ≡ k.named_by self }
    {
        match (self.voids, self.bools) {
            (Times::Never, Times::Never) => Some(TypeForm::Integer(self.integer_type()?)),
            (Times::Once, Times::Never) => self.alone(TypeForm::Void),
            (Times::Never, Times::Once) => self.alone(TypeForm::Integer(Basic::Bool)),
            _ => None,
        }
    }

    /// Whether they name a type.
    pub(crate) fn name_type(self) -> bool
        ensures { result ≡ is_some (k.named_by self) }
    {
        self.named().is_some()
    }
}

/// A length without `int`, or with it.
fn with_int(ints: Times, without: Length, with: Length) -> Option<Length>
    ensures { result ≡ k.with_int ints without with }
{
    match ints {
        Times::Never => Some(without),
        Times::Once => Some(with),
        Times::Twice => None,
        Times::TooOften => None,
    }
}

/// The length of `char`, which stands without `int`.
fn without_int(ints: Times) -> Option<Length>
    ensures { result ≡ k.without_int ints }
{
    match ints {
        Times::Never => Some(Length::Char),
        Times::Once => None,
        Times::Twice => None,
        Times::TooOften => None,
    }
}

fn plain_type(length: Length) -> Option<Basic>
    ensures { result ≡ k.plain_type length }
{
    match length {
        Length::Char => Some(Basic::Char),
        Length::Short => Some(Basic::Short),
        Length::Int => Some(Basic::Int),
        Length::Unwritten => None,
        Length::Long => Some(Basic::Long),
        Length::LongLong => Some(Basic::LongLong),
    }
}

fn signed_type(length: Length) -> Basic
    ensures { result ≡ k.signed_type length }
{
    match length {
        Length::Char => Basic::SignedChar,
        Length::Short => Basic::Short,
        Length::Int => Basic::Int,
        Length::Unwritten => Basic::Int,
        Length::Long => Basic::Long,
        Length::LongLong => Basic::LongLong,
    }
}

fn unsigned_type(length: Length) -> Basic
    ensures { result ≡ k.unsigned_type length }
{
    match length {
        Length::Char => Basic::UnsignedChar,
        Length::Short => Basic::UnsignedShort,
        Length::Int => Basic::Unsigned,
        Length::Unwritten => Basic::Unsigned,
        Length::Long => Basic::UnsignedLong,
        Length::LongLong => Basic::UnsignedLongLong,
    }
}

/// The type that the keywords of a list name, in any order; none where they name none.
#[tactic(auto, using(crate::proofs::KeywordLaws::named_by_words))]
pub fn type_by_words(specs: &[Spec]) -> Option<TypeForm>
    ensures { option_map form_of result ≡ m.type_by_words (w.type_words (w.words_of (specs_items specs.now))) }
{
    Keywords::of(specs).named()
}

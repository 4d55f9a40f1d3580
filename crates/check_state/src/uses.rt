//! Whether a part is evaluated.
ghost use Rattle.std.specs.Prelude.{◌≡◌};
ghost use Rattle.model_checking.specs.Literals as l;
ghost use Rattle.check_state.specs.Seen.{use_of};

/// Whether a part is evaluated, or stands in `sizeof`, `alignof` or `typeof` (ISO/IEC 9899:2024, 6.5.4.5, 6.7.3.6).
#[derive(Clone, Copy, Debug, PartialEq, Eq)]
pub enum Use {
    Evaluated,
    Unevaluated,
}

impl Use {
    /// Whether the part is evaluated.
    pub fn is_evaluated(self) -> bool
        ensures { result ≡ l.is_evaluated (use_of self) }
    {
        match self {
            Use::Evaluated => true,
            Use::Unevaluated => false,
        }
    }
}

//! Laws of the texts: each function does nothing, and its contract is the law.
ghost use Rattle.std.specs.Prelude.{◌≡◌, ℕ, List};
ghost use Rattle.model_core.specs.Program89.{Program};
ghost use Rattle.model_c89.specs.Typing89.{Typed};
ghost use Rattle.model_c89.specs.Spelling89.{canonical};
ghost use Rattle.model_c89.specs.Reading89.{Reads89};

/// What is spelled reads as the program that it is the spelling of.
pub fn spelled_text_reads()
    ensures { (program : Program) → Typed program → Reads89 (canonical program) program }
{}

/// What reads as a program is its one spelling.
pub fn read_text_is_spelled()
    ensures { (text : List ℕ) (program : Program) → Reads89 text program → canonical program ≡ text }
{}

/// A text reads as one program at most.
pub fn one_reading()
    ensures { (text : List ℕ) (program other : Program) → Reads89 text program → Reads89 text other → program ≡ other }
{}

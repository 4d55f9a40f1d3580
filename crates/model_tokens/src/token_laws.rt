//! Laws of preprocessing tokens.
ghost use Rattle.std.specs.Prelude.{ℕ, ◌≤◌, List, length, take};
ghost use Rattle.model_tokens.specs.declared.steps.LinePart.{LinePart};
ghost use Rattle.model_tokens.specs.Literals.{EndsLiteral};
ghost use Rattle.model_tokens.specs.PpNumbers.{PpNumber, StandsNumber};

/// Where a text begins with a preprocessing number, the longest such number stands at its front
/// (ISO/IEC 9899:2024, 6.4 and 6.4.8).
pub fn longest_number()
    ensures { (line : LinePart) (text : List ℕ) (m : ℕ) → m ≤ length text → PpNumber (take m text) → StandsNumber line text m }
{}

/// Where a string literal or a character constant ends: behind the first quote before which no
/// backslash stands that isn't behind one itself (6.4.4.5, 6.4.5).
pub fn literals_end()
    ensures strings { (text : List ℕ) (n : ℕ) → EndsLiteral 34 text n }
    ensures characters { (text : List ℕ) (n : ℕ) → EndsLiteral 39 text n }
{}

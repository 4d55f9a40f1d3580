//! Laws of the definitions: each function does nothing, and its contract is the law.
ghost use Rattle.std.specs.Prelude.{◌≡◌, true, ◌&&◌};
ghost use Rattle.model_types.specs.Types.{CType};
ghost use Rattle.model_types.specs.Compatible.{compatible};
ghost use Rattle.model_scopes.specs.CompositeTypes.{composite};

/// A type is compatible with the composite type of two compatible types exactly where it is
/// compatible with both. So a redeclaration is compared with all declarations before it.
pub fn composite_stands_for_both()
    ensures { (t u v : CType) → compatible t u ≡ true → compatible (composite t u) v ≡ (compatible t v && compatible u v) }
{}

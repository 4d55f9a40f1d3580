//! Laws of the definitions: each function does nothing, and its contract is the law.
ghost use Rattle.std.specs.Prelude.{◌≡◌, ℕ, ◌≤◌, Some, slice_get};
ghost use Rattle.cake_base.specs.declared.places.Place.{Place};
ghost use Rattle.cake_base.specs.declared.rules.Fault.{Fault};
ghost use Rattle.model_scopes.specs.Scopes.{Declared, Scopes};
ghost use Rattle.model_scopes.specs.NotedUses.{unmet_use, unresolved};

/// What `unresolved` names is a use that needs a definition, and none comes before it.
pub fn unresolved_is_first()
    ensures first { (s : Scopes) (i : ℕ) (e : ℕ × Declared) (p : Place) → slice_get s.declared i ≡ Some e → unmet_use e.1 ≡ Some p → (f : Fault) × (unresolved s ≡ Some f) × (f.place.order ≤ p.order) }
    ensures one { (s : Scopes) (f : Fault) → unresolved s ≡ Some f → (i : ℕ) × (e : ℕ × Declared) × (slice_get s.declared i ≡ Some e) × (unmet_use e.1 ≡ Some f.place) }
{}

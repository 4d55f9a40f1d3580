//! Laws of the typed core: each function does nothing, and its contract is the law.
ghost use Rattle.std.specs.Prelude.{IsTrue};
ghost use Rattle.std.specs.List.{list_all};
ghost use Rattle.model_core.specs.Core as m;
ghost use Rattle.model_core.specs.TypedUnitParts.{is_typed_object, is_typed_function};
ghost use Rattle.model_core.specs.TypedCore.{TypedCore};

/// The objects and functions of a typed core are typed by themselves, so that there are nodes for all of
/// them.
pub fn typed_core_has_typed_parts()
    ensures objects { (core : m.Core) → TypedCore core → IsTrue (list_all is_typed_object core.objects) }
    ensures functions { (core : m.Core) → TypedCore core → IsTrue (list_all is_typed_function core.functions) }
{}

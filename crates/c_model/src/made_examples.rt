//! What stands in a core and in no unit of the source: each function does nothing, and its contract is what the
//! definitions answer.
ghost use Rattle.std.specs.Prelude.{◌≡◌, true, false, [], ◌∷◌, codes};
ghost use Rattle.model_types.specs.declared.marks.Origin.TheVariants.{Written, Implied};
ghost use Rattle.model_core.specs.TypedCore.{is_typed_core};
ghost use Rattle.model_core.specs.MadeNames.{lifted_name, is_in_order};
ghost use Rattle.model_runs.specs.SourceRun.{run23};
ghost use Rattle.c_model.specs.Examples.{returned};
ghost use Rattle.c_model.specs.ExampleImplied.{element_of_value, element_of_braces, int_literal};
ghost use Rattle.c_model.specs.ExampleOrder.{standing};

/// An array member of a structure's value is one of an object that is implied.
pub fn value_gets_an_object()
    ensures typed { is_typed_core element_of_value ≡ true }
    ensures run { run23 100 element_of_value (codes "main") [] [] ≡ returned [] 7 }
{}

/// Such an object holds one value, of a structure; that of a compound literal any values.
pub fn implied_object_holds_a_structure()
    ensures written { is_typed_core (element_of_braces Written) ≡ true }
    ensures braces { is_typed_core (element_of_braces Implied) ≡ false }
    ensures written_int { is_typed_core (int_literal Written) ≡ true }
    ensures int { is_typed_core (int_literal Implied) ≡ false }
{}

/// Function literals that became functions are named from 1 on.
pub fn lifted_names_are_numbered()
    ensures first { lifted_name 0 ≡ codes "cake_f1" }
    ensures tenth { lifted_name 9 ≡ codes "cake_f10" }
{}

/// Objects and functions stand in the order of their numbers, and named types in that of their places.
pub fn lists_stand_in_order()
    ensures order { is_in_order (standing (1 ∷ 3 ∷ []) (2 ∷ 4 ∷ []) (7 ∷ 9 ∷ [])) ≡ true }
    ensures objects { is_in_order (standing (3 ∷ 1 ∷ []) (2 ∷ 4 ∷ []) (7 ∷ 9 ∷ [])) ≡ false }
    ensures functions { is_in_order (standing (1 ∷ 3 ∷ []) (4 ∷ 2 ∷ []) (7 ∷ 9 ∷ [])) ≡ false }
    ensures named { is_in_order (standing (1 ∷ 3 ∷ []) (2 ∷ 4 ∷ []) (9 ∷ 7 ∷ [])) ≡ false }
{}

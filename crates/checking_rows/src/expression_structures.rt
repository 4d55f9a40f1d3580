//! Structures in expressions, and qualifiers.
ghost use Rattle.std.specs.Prelude.{◌≡◌, true, Some, [], ◌∷◌, Err};
ghost use Rattle.std.specs.Result.{is_ok};
ghost use Rattle.model_core.specs.CoreTypes.{int_type, pointer_to};
ghost use Rattle.checking_rows.specs.InitializerParts.{array, broken, char_type};
ghost use Rattle.checking_rows.specs.ExpressionParts.{const, breaks, type_made, owner, pair, only_view, with_quals};
ghost use Rattle.checking_rows.specs.ExpressionStructures as rows;

/// Members of objects and of values.
pub fn members()
    ensures of_object { type_made rows.of_object ≡ Some int_type }
    ensures not_there { rows.not_there ≡ breaks 13 2 }
    ensures of_hidden { rows.of_hidden ≡ breaks 13 2 }
    ensures of_number { rows.of_number ≡ breaks 9 1 }
    ensures of_void { rows.of_void ≡ breaks 9 3 }
    ensures of_value { type_made rows.of_value ≡ Some int_type }
    ensures of_value_assigned { rows.of_value_assigned ≡ breaks 10 5 }
{}

/// An array of a structure's value is one of an object that the block gets, where it is evaluated.
pub fn arrays_of_values()
    ensures row { type_made rows.row_alone ≡ Some (array 2 int_type) }
    ensures element { type_made rows.element_of_value ≡ Some int_type }
    ensures address { rows.address_of_row ≡ breaks 11 1 }
    ensures evaluated { rows.made_in rows.row_of_value ≡ 50 ∷ [] }
    ensures unevaluated { rows.made_in rows.row_unevaluated ≡ [] }
{}

/// Through a structure that is const or a view its members are so too; what a view holds it doesn't own.
pub fn qualified_members()
    ensures of_const { type_made rows.of_const ≡ Some (const int_type) }
    ensures row_of_const { type_made rows.row_of_const ≡ Some (array 2 (const int_type)) }
    ensures of_view { type_made rows.of_view ≡ Some (with_quals only_view (pointer_to char_type)) }
    ensures of_holder { type_made rows.of_holder ≡ Some owner }
{}

/// What may be assigned to, and with what.
pub fn assignments()
    ensures const_inside { rows.const_inside ≡ breaks 10 1 }
    ensures structure { type_made rows.structure_assigned ≡ Some pair }
    ensures arrays { rows.array_assigned ≡ breaks 10 1 }
    ensures hidden { rows.hidden_assigned ≡ breaks 10 1 }
    ensures const_object { rows.const_assigned ≡ breaks 10 1 }
    ensures other_structure { rows.other_structure ≡ breaks 16 2 }
{}

/// `const` and `_View` behind a pointer aren't dropped, and `_Owner` is the same.
pub fn dropped_qualifiers()
    ensures drops_const { rows.drops_const ≡ Err (broken 17 2) }
    ensures gains_const { is_ok rows.gains_const ≡ true }
    ensures drops_view { rows.drops_view ≡ Err (broken 17 2) }
    ensures gains_view { is_ok rows.gains_view ≡ true }
    ensures gains_owner { rows.gains_owner ≡ Err (broken 17 2) }
    ensures drops_owner { rows.drops_owner ≡ Err (broken 17 2) }
    ensures array_gains { is_ok rows.array_gains_const ≡ true }
    ensures array_drops { rows.array_drops_const ≡ Err (broken 17 2) }
    ensures deeper { rows.deeper_const ≡ Err (broken 16 2) }
    ensures null { is_ok rows.null_for_owners ≡ true }
    ensures owner { is_ok rows.owner_gets_pointer ≡ true }
{}

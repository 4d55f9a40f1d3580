//! Pointers in expressions.
ghost use Rattle.std.specs.Prelude.{◌≡◌, true, Some, Err};
ghost use Rattle.std.specs.Result.{is_ok};
ghost use Rattle.model_types.specs.declared.numbers.Basic.TheVariants as basic;
ghost use Rattle.model_core.specs.CoreTypes.{int_type, pointer_to};
ghost use Rattle.checking_rows.specs.InitializerParts.{integer, array, broken, void_type};
ghost use Rattle.checking_rows.specs.ExpressionParts.{const, breaks, type_made, int_pointer, int_function, function_of, void_pointer};
ghost use Rattle.checking_rows.specs.ExpressionPointers as rows;

/// A pointer to a complete object is needed; one to anything but a structure has no members.
pub fn what_is_pointed_to()
    ensures arrow_to_number { rows.arrow_to_number ≡ breaks 13 2 }
    ensures arrow_to_hidden { rows.arrow_to_hidden ≡ breaks 12 0 }
    ensures arrow_of_number { rows.arrow_of_number ≡ breaks 12 0 }
    ensures void_pointer { rows.void_pointer_followed ≡ breaks 12 0 }
    ensures without_length { rows.array_without_length_followed ≡ breaks 12 0 }
    ensures void_element { rows.void_pointer_element ≡ breaks 12 0 }
    ensures void_element_in_reverse { rows.element_of_void_pointer ≡ breaks 12 2 }
    ensures number_element { rows.number_element ≡ breaks 9 1 }
    ensures in_reverse { type_made rows.element_in_reverse ≡ Some int_type }
{}

/// Functions are followed to themselves; they have no size, no order, and no tie to `void *`.
pub fn functions()
    ensures twice { type_made rows.function_followed_twice ≡ Some int_function }
    ensures pointer_twice { type_made rows.pointer_followed_twice ≡ Some int_function }
    ensures address { type_made rows.address_of_followed ≡ Some (pointer_to int_function) }
    ensures size { rows.size_of_followed ≡ breaks 22 1 }
    ensures pointer_size { type_made rows.size_of_pointer ≡ Some (integer basic.UnsignedLong) }
    ensures moved { rows.function_moved ≡ breaks 12 0 }
    ensures order { rows.functions_in_order ≡ breaks 19 1 }
    ensures order_with_null { rows.function_before_null ≡ breaks 19 1 }
    ensures equal { type_made rows.equal_functions ≡ Some int_type }
    ensures void_pointer { rows.function_is_void_pointer ≡ breaks 19 1 }
    ensures or_void_pointer { rows.function_or_void_pointer ≡ breaks 20 1 }
{}

/// Which pointers agree in differences, comparisons and `?:`.
pub fn pointers_that_agree()
    ensures deeper { rows.deeper_qualifiers ≡ breaks 19 1 }
    ensures nearest { type_made rows.nearest_qualifiers ≡ Some int_type }
    ensures apart { rows.apart ≡ breaks 19 1 }
    ensures nullptr { rows.apart_from_nullptr ≡ breaks 12 2 }
    ensures subtracted { rows.pointer_subtracted ≡ breaks 9 1 }
    ensures zero { type_made rows.before_zero ≡ Some int_type }
    ensures one { rows.before_one ≡ breaks 9 1 }
    ensures order_of_void { rows.before_void_pointer ≡ breaks 19 1 }
    ensures equal_to_void { type_made rows.is_void_pointer ≡ Some int_type }
    ensures two_nulls { type_made rows.nullptr_is_zero ≡ Some int_type }
    ensures or_void { type_made rows.one_or_void ≡ Some (pointer_to (const void_type)) }
    ensures composite { type_made rows.composite_arrays ≡ Some (pointer_to (array 3 (const int_type))) }
    ensures or_null { type_made rows.one_or_null ≡ Some int_pointer }
    ensures null_or_null { type_made rows.null_or_null ≡ Some void_pointer }
    ensures or_number { rows.one_or_number ≡ breaks 20 1 }
{}

/// What is a null pointer constant: `nullptr`, an integer constant expression of value 0, or one cast to `void *`.
pub fn null_pointer_constants()
    ensures nullptr { is_ok rows.takes_nullptr ≡ true }
    ensures zero { is_ok rows.takes_zero ≡ true }
    ensures void_zero { is_ok rows.takes_void_zero ≡ true }
    ensures known_number { is_ok rows.takes_known_number ≡ true }
    ensures difference { is_ok rows.takes_difference ≡ true }
    ensures cast_nullptr { rows.takes_cast_nullptr ≡ Err (broken 16 2) }
    ensures known_pointer { rows.takes_known_pointer ≡ Err (broken 16 2) }
    ensures number { rows.takes_number ≡ Err (broken 16 2) }
    ensures one { rows.takes_one ≡ Err (broken 16 2) }
{}

/// Casts between integers and pointers: null pointer constants and `bool` alone.
pub fn casts()
    ensures to_number { rows.pointer_to_number ≡ breaks 18 0 }
    ensures to_bool { type_made rows.pointer_to_bool ≡ Some (integer basic.Bool) }
    ensures to_pointer { rows.number_to_pointer ≡ breaks 18 0 }
    ensures zero { type_made rows.zero_to_pointer ≡ Some int_pointer }
    ensures function { rows.function_to_void_pointer ≡ breaks 18 0 }
    ensures functions { is_ok rows.function_to_function ≡ true }
    ensures structure { rows.to_structure ≡ breaks 18 0 }
{}

//! Constant expressions and static values.
ghost use Rattle.std.specs.Prelude.{◌≡◌, pos, None, Ok, Err};
ghost use Rattle.model_types.specs.declared.numbers.Basic.TheVariants as basic;
ghost use Rattle.model_core.specs.CoreTypes.{int_type, pointer_to};
ghost use Rattle.checking_rows.specs.InitializerParts.{broken, integer, char_pointer};
ghost use Rattle.checking_rows.specs.ExpressionParts.{breaks_rule, int_pointer, int_function, void_pointer, pair};
ghost use Rattle.checking_rows.specs.ExpressionConstants as rows;

/// Integer constant expressions are built of integer constants, also in parts that aren't evaluated; only the parts
/// that are evaluated have to be defined.
pub fn integer_constant_expressions()
    ensures nullptr_as_bool { rows.constant_at_0 rows.nullptr_as_bool ≡ Err (broken 23 0) }
    ensures nullptr_is_zero { rows.constant_at_0 rows.nullptr_is_zero ≡ Err (broken 23 0) }
    ensures comma { rows.constant_at_0 rows.comma_of_constants ≡ Err (broken 23 0) }
    ensures const_object { rows.constant_at_0 rows.const_object ≡ Err (broken 23 0) }
    ensures known_object { rows.constant_at_0 rows.known_object ≡ Ok (record { value = pos 0; basic = basic.Int }) }
    ensures quotient { rows.constant_at_0 rows.quotient ≡ Err (broken 24 0) }
    ensures not_evaluated { rows.constant_at_0 rows.not_evaluated ≡ Ok (record { value = pos 0; basic = basic.Int }) }
    ensures evaluated { rows.constant_at_0 rows.evaluated ≡ Err (broken 24 0) }
    ensures not_built { rows.constant_at_0 rows.not_built_of_constants ≡ Err (broken 23 0) }
    ensures overflow { rows.constant_at_0 rows.overflow ≡ Err (broken 24 0) }
    ensures chosen { rows.constant_at_0 rows.chosen ≡ Ok (record { value = pos 2; basic = basic.Int }) }
{}

/// Addresses of functions and of static objects, at offsets that are constant and defined.
pub fn static_values()
    ensures address { rows.static_at_0 int_pointer rows.address ≡ None }
    ensures automatic { rows.static_at_0 int_pointer rows.automatic_address ≡ breaks_rule 23 0 }
    ensures array { rows.static_at_0 int_pointer rows.array_address ≡ None }
    ensures function { rows.static_at_0 (pointer_to int_function) rows.function_address ≡ None }
    ensures sum { rows.static_at_0 int_pointer rows.sum ≡ None }
    ensures undefined_offset { rows.static_at_0 int_pointer rows.undefined_offset ≡ breaks_rule 24 0 }
    ensures unknown_offset { rows.static_at_0 int_pointer rows.unknown_offset ≡ breaks_rule 23 0 }
    ensures chosen { rows.static_at_0 int_pointer rows.chosen_address ≡ breaks_rule 23 0 }
    ensures cast { rows.static_at_0 char_pointer rows.cast_address ≡ None }
    ensures compared { rows.static_at_0 int_type rows.compared_addresses ≡ breaks_rule 23 0 }
    ensures difference { rows.static_at_0 (integer basic.Long) rows.difference_of_addresses ≡ breaks_rule 23 0 }
    ensures bool { rows.static_at_0 (integer basic.Bool) rows.address ≡ breaks_rule 23 0 }
    ensures known_pointer { rows.static_at_0 int_pointer rows.known_pointer ≡ None }
    ensures known_void_pointer { rows.static_at_0 int_pointer rows.known_void_pointer ≡ None }
    ensures structure { rows.static_at_0 pair rows.structure_value ≡ breaks_rule 23 0 }
    ensures loaded { rows.static_at_0 int_type rows.loaded ≡ breaks_rule 23 0 }
    ensures undefined { rows.static_at_0 int_type rows.quotient ≡ breaks_rule 24 0 }
{}

//! What is asked of a typed core, by cores that aren't: each function does nothing, and its contract is
//! what the definition answers.
ghost use Rattle.std.specs.Prelude.{◌≡◌, true, false, [], ◌∷◌, None, codes};
ghost use Rattle.model_types.specs.declared.numbers.Basic.TheVariants as basic;
ghost use Rattle.model_types.specs.declared.numbers.BinOp.TheVariants.{Add, Mul, Less, Equal};
ghost use Rattle.model_types.specs.declared.marks.Origin.TheVariants.{Written, Implied};
ghost use Rattle.model_types.specs.Types.{typed, Void, Integer, Enum, Pointer, Array, Function, no_types, types};
ghost use Rattle.model_core.specs.CoreTypes.{int_type, plain, pointer_to};
ghost use Rattle.model_core.specs.Core.{Convert, no_initials};
ghost use Rattle.c_model.specs.ExampleParts.{no_mark, number, int_variable, load, function_type};
ghost use Rattle.c_model.specs.ExampleList.{implied, const_int};
ghost use Rattle.c_model.specs.ExampleFaults.{array_of, one_number_twice, declared_again_inside, used_out_of_scope, parameter_without_object};
ghost use Rattle.c_model.specs.ExampleFaults.{address_not_noted, value_for_no_part, value_elsewhere, two_values_for_one_part, values_out_of_order};
ghost use Rattle.c_model.specs.ExampleFaults.{values_in_order, part_over_whole, whole_value, int_value_at, call_in_constant, moved_null, object_of};
ghost use Rattle.c_model.specs.ExampleFaults.{with_structure, structure_in_itself, declared_function, variadic_definition, string_without_room};
ghost use Rattle.c_model.specs.ExampleFaults.{internal_undefined, malloc_without_owner, defined_abort, const_member_inside, member_assigned, valued};
ghost use Rattle.c_model.specs.ExampleFaults.{pointer, compound, one_value, first_of_two, empty_pointer, array_gains_const, array_in_its_initializer};
ghost use Rattle.c_model.specs.ExampleFaults.{outer89, function89, declaring89, main89, object89, returning89, outside89, f89, p89, v89, joined89};
ghost use Rattle.c_model.specs.ExampleFaults.{started89, char_pointer89, null89};
ghost use Rattle.model_core.specs.TypedCore.{is_typed_core};
ghost use Rattle.model_core.specs.CoveredObjects.{Covers};
ghost use Rattle.model_core.specs.SameTypes.{is_null_constant};
ghost use Rattle.model_core.specs.StaticValues.{gives_null};
ghost use Rattle.model_core.specs.Program89.{Plainly, Static, Extern, Binary, Cast, Call, Logic, no_exprs};
ghost use Rattle.model_types.specs.declared.operators.LogicOp.TheVariants.{And};
ghost use Rattle.model_core.specs.Types89 as type89;
ghost use Rattle.c_model.specs.ExampleTexts.{number89};
ghost use Rattle.model_c89.specs.Typing89 as text;

/// Each object has a number of its own, and is used in its scope.
pub fn numbers_and_scopes_are_asked()
    ensures twice { is_typed_core one_number_twice ≡ false }
    ensures inside { is_typed_core declared_again_inside ≡ false }
    ensures outside { is_typed_core used_out_of_scope ≡ false }
    ensures parameter { is_typed_core parameter_without_object ≡ false }
    ensures address { is_typed_core address_not_noted ≡ false }
{}

/// Initial values are for parts of their object, in order, and constant where it is static.
pub fn initial_values_are_asked()
    ensures no_part { is_typed_core value_for_no_part ≡ false }
    ensures elsewhere { is_typed_core value_elsewhere ≡ false }
    ensures twice { is_typed_core two_values_for_one_part ≡ false }
    ensures disorder { is_typed_core values_out_of_order ≡ false }
    ensures order { is_typed_core values_in_order ≡ true }
    ensures whole_first { is_typed_core (part_over_whole (whole_value (int_value_at (1 ∷ []) 4 no_initials))) ≡ true }
    ensures part_first { is_typed_core (part_over_whole (int_value_at (1 ∷ []) 4 (whole_value no_initials))) ≡ false }
    ensures call { is_typed_core call_in_constant ≡ false }
    ensures null { is_typed_core moved_null ≡ false }
    ensures own_array { is_typed_core array_in_its_initializer ≡ true }
{}

/// An object is covered where every scalar of it has a value.
pub fn covered_objects_have_all_values()
    ensures scalar { Covers [] int_type one_value }
    ensures array { Covers [] (array_of int_type 2) first_of_two → ⊥ }
{}

/// What `{}` gives a pointer is null, and no null pointer constant.
pub fn empty_braces_give_null()
    ensures null { gives_null empty_pointer ≡ true }
    ensures constant { is_null_constant empty_pointer ≡ false }
{}

/// Types are possible: lengths, elements, members, results, parameters and sizes.
pub fn types_are_asked()
    ensures plain_object { is_typed_core (object_of (array_of int_type 3)) ≡ true }
    ensures no_length { is_typed_core (object_of (array_of int_type 0)) ≡ false }
    ensures size { is_typed_core (object_of (array_of int_type 268435457)) ≡ false }
    ensures void_element { is_typed_core (object_of (pointer_to (plain (Array (plain Void) None)))) ≡ false }
    ensures function_element { is_typed_core (object_of (pointer_to (plain (Array (function_type int_type []) None)))) ≡ false }
    ensures array_result { is_typed_core (declared_function (function_type (array_of int_type 3) [])) ≡ false }
    ensures void_parameter { is_typed_core (declared_function (function_type int_type (plain Void ∷ []))) ≡ false }
    ensures only_dots { is_typed_core (declared_function (plain (Function int_type no_types true))) ≡ false }
    ensures variadic { is_typed_core variadic_definition ≡ false }
    ensures no_member { is_typed_core (with_structure []) ≡ false }
    ensures in_itself { is_typed_core structure_in_itself ≡ false }
    ensures string { is_typed_core string_without_room ≡ false }
{}

/// Internal functions that are used are defined, and those of `<stdlib.h>` are declared as they are.
pub fn functions_are_asked()
    ensures internal { is_typed_core internal_undefined ≡ false }
    ensures owner { is_typed_core malloc_without_owner ≡ false }
    ensures defined { is_typed_core defined_abort ≡ false }
{}

/// What is assigned to isn't const, at any depth, and conversions are those that there are.
pub fn assignments_and_conversions_are_asked()
    ensures deep_const { is_typed_core const_member_inside ≡ false }
    ensures const_member { is_typed_core (member_assigned const_int) ≡ false }
    ensures hidden_const { is_typed_core (member_assigned int_type) ≡ false }
    ensures pointer_added { is_typed_core (compound Add int_type (int_variable 2) (load pointer)) ≡ false }
    ensures pointer_multiplied { is_typed_core (compound Mul (pointer_to int_type) pointer (number 2)) ≡ false }
    ensures pointer_moved { is_typed_core (compound Add (pointer_to int_type) pointer (number 2)) ≡ true }
    ensures done_in_short { is_typed_core (compound Add (plain (Integer basic.Short)) (int_variable 2) (number 2)) ≡ false }
    ensures done_in_int { is_typed_core (compound Add int_type (int_variable 2) (number 2)) ≡ true }
    ensures implied_to_void { is_typed_core (valued (implied (plain Void) (number 1))) ≡ false }
    ensures cast_to_void { is_typed_core (valued (Convert Written (plain Void) (number 1) no_mark)) ≡ true }
    ensures pointer_to_bool { is_typed_core (valued (implied (plain (Integer basic.Bool)) (load pointer))) ≡ true }
    ensures pointer_to_enum { is_typed_core (valued (implied (plain (Enum basic.Bool 0)) (load pointer))) ≡ false }
    ensures const_gained { is_typed_core array_gains_const ≡ true }
{}

/// Declarations of a C89 program agree in linkage, what is static is defined, and nothing has two values.
pub fn linkage_of_texts_is_asked()
    ensures plain { text.is_typed (declaring89 (main89 Plainly ∷ [])) ≡ true }
    ensures static_prototype { text.is_typed (declaring89 (main89 Static ∷ [])) ≡ false }
    ensures static_undefined { text.is_typed (declaring89 (main89 Plainly ∷ outer89 Static function89 (codes "f") None ∷ [])) ≡ false }
    ensures one_value { text.is_typed (declaring89 (main89 Plainly ∷ object89 Plainly ∷ [])) ≡ true }
    ensures two_values { text.is_typed (declaring89 (main89 Plainly ∷ object89 Plainly ∷ object89 Plainly ∷ [])) ≡ false }
    ensures two_linkages { text.is_typed (declaring89 (main89 Plainly ∷ outer89 Extern function89 (codes "f") None ∷ outer89 Static function89 (codes "f") None ∷ [])) ≡ false }
{}

/// Expressions of a C89 program have types by C89: functions have no order, and values of `?:` are of one type.
pub fn types_of_texts_are_asked()
    ensures equal { text.is_typed (returning89 outside89 (Binary Equal f89 f89)) ≡ true }
    ensures ordered { text.is_typed (returning89 outside89 (Binary Less f89 f89)) ≡ false }
    ensures joined { text.is_typed (returning89 outside89 (joined89 (Cast (type89.Pointer false type89.int_type) v89))) ≡ true }
    ensures void_joined { text.is_typed (returning89 outside89 (joined89 v89)) ≡ false }
    ensures null { text.is_typed (started89 char_pointer89 null89) ≡ true }
    ensures moved_null { text.is_typed (started89 char_pointer89 (Binary Add null89 (number89 1))) ≡ false }
    ensures constant { text.is_typed (started89 type89.int_type (Logic And (number89 0) (number89 1))) ≡ true }
    ensures call { text.is_typed (started89 type89.int_type (Logic And (number89 0) (Call f89 no_exprs))) ≡ false }
    ensures void_object { text.is_typed (returning89 (outer89 Extern (type89.Based false type89.Void) (codes "x") None ∷ []) (number89 0)) ≡ false }
{}

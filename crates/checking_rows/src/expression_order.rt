//! Which of several broken rules an expression's fault is.
ghost use Rattle.std.specs.Prelude.{◌≡◌, Some, Err};
ghost use Rattle.checking_rows.specs.ExpressionParts.{breaks, breaks_rule, type_made};
ghost use Rattle.model_core.specs.CoreTypes.{pointer_to};
ghost use Rattle.checking_rows.specs.ExpressionParts.{hidden};
ghost use Rattle.checking_rows.specs.InitializerParts.{broken};
ghost use Rattle.checking_rows.specs.ExpressionOrder as rows;

/// A rule that names the left part alone is broken whether the right part is declared or not.
pub fn before_undeclared_parts()
    ensures wrong_count { rows.wrong_count ≡ breaks_rule 15 1 }
    ensures first_argument { rows.first_argument ≡ Err (broken 16 2) }
    ensures sum { rows.sum_with_undeclared ≡ breaks 5 2 }
    ensures void_operand { rows.void_with_undeclared ≡ breaks 21 0 }
    ensures assignment { rows.number_gets_undeclared ≡ breaks 10 1 }
    ensures assignment_by { rows.number_gains_undeclared ≡ breaks 10 1 }
    ensures void_object { rows.void_object_or_undeclared ≡ breaks 21 2 }
    ensures comma { rows.void_object_then_undeclared ≡ breaks 21 0 }
    ensures condition { rows.structure_as_condition ≡ breaks_rule 9 1 }
    ensures void_condition { rows.void_as_condition ≡ breaks_rule 21 0 }
{}

/// A void operand is used, but where a smaller rule stands at the same token, or another before it.
pub fn void_operands()
    ensures on_the_right { rows.void_on_the_right ≡ breaks 9 1 }
    ensures on_the_left { rows.void_on_the_left ≡ breaks 21 0 }
    ensures logic { rows.void_and ≡ breaks 21 0 }
    ensures element { rows.void_element ≡ breaks 21 0 }
    ensures cast { rows.void_cast ≡ breaks 18 0 }
    ensures choice { rows.void_or_number ≡ breaks 20 1 }
    ensures followed { rows.void_followed ≡ breaks 12 1 }
    ensures address { rows.void_address ≡ breaks 11 1 }
    ensures called { rows.void_called ≡ breaks_rule 14 0 }
    ensures negated { rows.void_negated ≡ breaks 9 0 }
    ensures assigned { rows.void_assigned ≡ breaks 16 2 }
    ensures behind_parameters { rows.void_behind_parameters ≡ Err (broken 21 2) }
    ensures left_of_assignment { rows.void_gets ≡ breaks 10 3 }
    ensures left_of_assignment_by { rows.void_gains ≡ breaks 9 3 }
    ensures stepped { rows.void_stepped ≡ breaks 9 3 }
{}

/// An object of type void, or of an incomplete structure, has no value and may have an address.
pub fn objects_without_a_value()
    ensures first { rows.void_object_first ≡ breaks 21 0 }
    ensures cast { rows.void_object_cast ≡ breaks 21 3 }
    ensures or_number { rows.void_object_or_number ≡ breaks 20 1 }
    ensures both { rows.void_objects ≡ breaks 21 2 }
    ensures hidden_cast { rows.hidden_cast ≡ breaks 22 3 }
    ensures address { rows.void_object_address ≡ breaks 11 1 }
    ensures hidden_address { type_made rows.hidden_address ≡ Some (pointer_to hidden) }
{}

/// `++` and assignments by an operator: the operands' places and the operator's.
pub fn steps_and_assignments()
    ensures behind { rows.const_pointer_behind ≡ breaks 12 0 }
    ensures before { rows.const_pointer_before ≡ breaks 10 0 }
    ensures number { rows.number_stepped ≡ breaks 10 0 }
    ensures structure { rows.structure_stepped ≡ breaks 9 1 }
    ensures gains_structure { rows.number_gains_structure ≡ breaks 9 1 }
    ensures gains_pointer { rows.number_gains_pointer ≡ breaks 16 2 }
    ensures gains_void_pointer { rows.number_gains_void_pointer ≡ breaks 12 2 }
    ensures loses_pointer { rows.pointer_loses_pointer ≡ breaks 16 2 }
    ensures both_pointers { rows.pointer_gains_pointer ≡ breaks 9 1 }
    ensures times_pointer { rows.number_times_pointer ≡ breaks 9 1 }
{}

/// What a call needs before its arguments are looked at.
pub fn calls()
    ensures parameter { rows.hidden_parameter ≡ breaks_rule 22 0 }
    ensures result { rows.hidden_result ≡ breaks_rule 22 0 }
    ensures number { rows.number_called ≡ breaks_rule 14 0 }
{}

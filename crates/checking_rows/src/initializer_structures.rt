//! Values of whole structures, and values that no constant shows; in the order of offsets.
ghost use Rattle.std.specs.Prelude.{◌≡◌, pos, [], ◌∷◌};
ghost use Rattle.checking_rows.specs.InitializerAnswers.{outcome, gets, value_at, number_is, held_by, address_of, result_of};
ghost use Rattle.checking_rows.specs.InitializerStructures as rows;

/// Values of whole structures, and values that no constant shows; in the order of offsets.
pub fn structures()
    ensures whole { outcome rows.whole ≡ gets (value_at [] 0 (held_by 2) ∷ []) }
    ensures whole_line { outcome rows.whole_line ≡ gets (value_at [] 0 (held_by 4) ∷ []) }
    ensures first_member { outcome rows.first_member ≡ gets (value_at (0 ∷ []) 0 (held_by 2) ∷ value_at (1 ∷ 0 ∷ []) 8 (number_is (pos 1)) ∷ value_at (1 ∷ 1 ∷ []) 12 (number_is (pos 2)) ∷ []) }
    ensures behind_scalars { outcome rows.behind_scalars ≡ gets (value_at (0 ∷ 0 ∷ []) 0 (number_is (pos 1)) ∷ value_at (0 ∷ 1 ∷ []) 4 (number_is (pos 2)) ∷ value_at (1 ∷ []) 8 (held_by 2) ∷ []) }
    ensures before_scalars { outcome rows.before_scalars ≡ gets (value_at (0 ∷ []) 0 (held_by 2) ∷ value_at (1 ∷ 0 ∷ []) 8 (number_is (pos 3)) ∷ value_at (1 ∷ 1 ∷ []) 12 (number_is (pos 0)) ∷ []) }
    ensures part_behind_whole { outcome rows.part_behind_whole ≡ gets (value_at (0 ∷ []) 0 (held_by 2) ∷ value_at (0 ∷ 1 ∷ []) 4 (number_is (pos 5)) ∷ value_at (1 ∷ 0 ∷ []) 8 (number_is (pos 0)) ∷ value_at (1 ∷ 1 ∷ []) 12 (number_is (pos 0)) ∷ []) }
    ensures part_before_whole { outcome rows.part_before_whole ≡ gets (value_at (0 ∷ []) 0 (held_by 2) ∷ value_at (1 ∷ 0 ∷ []) 8 (number_is (pos 0)) ∷ value_at (1 ∷ 1 ∷ []) 12 (number_is (pos 0)) ∷ []) }
    ensures braces_behind_whole { outcome rows.braces_behind_whole ≡ gets (value_at (0 ∷ 0 ∷ []) 0 (number_is (pos 1)) ∷ value_at (0 ∷ 1 ∷ []) 4 (number_is (pos 0)) ∷ value_at (1 ∷ 0 ∷ []) 8 (number_is (pos 0)) ∷ value_at (1 ∷ 1 ∷ []) 12 (number_is (pos 0)) ∷ []) }
    ensures elements { outcome rows.elements ≡ gets (value_at (0 ∷ []) 0 (held_by 2) ∷ value_at (1 ∷ []) 8 (held_by 2) ∷ []) }
    ensures of_the_whole_type { outcome rows.of_the_whole_type ≡ gets (value_at (0 ∷ []) 0 (held_by 4) ∷ value_at (1 ∷ 0 ∷ []) 16 (held_by 2) ∷ value_at (1 ∷ 1 ∷ 0 ∷ []) 24 (number_is (pos 0)) ∷ value_at (1 ∷ 1 ∷ 1 ∷ []) 28 (number_is (pos 0)) ∷ []) }
    ensures string_for_a_pointer { outcome rows.string_for_a_pointer ≡ gets (value_at (0 ∷ []) 0 (address_of 21) ∷ value_at (1 ∷ []) 8 (held_by 2) ∷ []) }
    ensures string_and_null { outcome rows.string_and_null ≡ gets (value_at (0 ∷ []) 0 (address_of 21) ∷ value_at (1 ∷ []) 8 (number_is (pos 0)) ∷ []) }
    ensures string_without_const { outcome rows.string_without_const ≡ gets (value_at [] 0 (address_of 21) ∷ []) }
    ensures missing_pointer { outcome rows.missing_pointer ≡ gets (value_at (0 ∷ []) 0 (number_is (pos 0)) ∷ value_at (1 ∷ 0 ∷ []) 8 (number_is (pos 1)) ∷ value_at (1 ∷ 1 ∷ []) 12 (number_is (pos 0)) ∷ []) }
    ensures order_of_offsets { outcome rows.order_of_offsets ≡ gets (value_at (0 ∷ []) 0 (result_of 31) ∷ value_at (1 ∷ []) 4 (result_of 30) ∷ []) }
    ensures overridden_call { outcome rows.overridden_call ≡ gets (value_at (0 ∷ []) 0 (result_of 31) ∷ value_at (1 ∷ []) 4 (number_is (pos 0)) ∷ []) }
{}

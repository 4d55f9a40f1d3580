//! Objects of static storage keep what the source gives, the rest is zero; constants alone are given.
ghost use Rattle.std.specs.Prelude.{◌≡◌, pos, [], ◌∷◌};
ghost use Rattle.checking_rows.specs.InitializerAnswers.{outcome, gets, breaks, value_at, number_is, address_of, another};
ghost use Rattle.checking_rows.specs.InitializerStatic as rows;

/// Objects of static storage keep what the source gives, the rest is zero; constants alone are given.
pub fn static_objects()
    ensures given { outcome rows.given ≡ gets (value_at (0 ∷ []) 0 (number_is (pos 1)) ∷ value_at (1 ∷ []) 4 (number_is (pos 2)) ∷ []) }
    ensures far { outcome rows.far ≡ gets (value_at (50 ∷ []) 200 (number_is (pos 1)) ∷ []) }
    ensures nothing { outcome rows.nothing ≡ gets ([]) }
    ensures empty_scalar { outcome rows.empty_scalar ≡ gets ([]) }
    ensures string { outcome rows.string ≡ gets (value_at (0 ∷ []) 0 (number_is (pos 97)) ∷ value_at (1 ∷ []) 1 (number_is (pos 98)) ∷ []) }
    ensures written_zero { outcome rows.written_zero ≡ gets (value_at (0 ∷ []) 0 (number_is (pos 0)) ∷ []) }
    ensures cleared { outcome rows.cleared ≡ gets (value_at (0 ∷ 0 ∷ []) 0 (number_is (pos 3)) ∷ []) }
    ensures of_an_object { outcome rows.of_an_object ≡ gets (value_at [] 0 (address_of 5) ∷ []) }
    ensures element { outcome rows.element ≡ gets (value_at [] 0 (another) ∷ []) }
    ensures strings { outcome rows.strings ≡ gets (value_at (0 ∷ []) 0 (address_of 21) ∷ []) }
    ensures null { outcome rows.null ≡ gets (value_at [] 0 (number_is (pos 0)) ∷ []) }
    ensures no_constant { outcome rows.no_constant ≡ breaks 23 4 }
    ensures undefined { outcome rows.undefined ≡ breaks 24 4 }
    ensures undefined_offset { outcome rows.undefined_offset ≡ breaks 24 5 }
    ensures automatic { outcome rows.automatic ≡ breaks 23 5 }
    ensures structure { outcome rows.structure ≡ breaks 23 5 }
    ensures structure_inside { outcome rows.structure_inside ≡ breaks 23 10 }
    ensures a_call { outcome rows.a_call ≡ breaks 23 10 }
    ensures integer_for_pointer { outcome rows.integer_for_pointer ≡ breaks 16 5 }
    ensures pointer_for_integer { outcome rows.pointer_for_integer ≡ breaks 16 4 }
    ensures before_too_many { outcome rows.before_too_many ≡ breaks 23 12 }
{}

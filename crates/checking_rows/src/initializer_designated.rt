//! Designators that do not fit, and faulty ones.
ghost use Rattle.std.specs.Prelude.{◌≡◌};
ghost use Rattle.checking_rows.specs.InitializerAnswers.{outcome, breaks};
ghost use Rattle.checking_rows.specs.InitializerDesignated as rows;

/// Designators that do not fit, and faulty ones.
pub fn wrong_designators()
    ensures no_member { outcome rows.no_member ≡ breaks 34 10 }
    ensures no_element { outcome rows.no_element ≡ breaks 34 7 }
    ensures negative { outcome rows.negative ≡ breaks 34 7 }
    ensures member_of_array { outcome rows.member_of_array ≡ breaks 34 7 }
    ensures element_of_structure { outcome rows.element_of_structure ≡ breaks 34 5 }
    ensures of_a_scalar { outcome rows.of_a_scalar ≡ breaks 34 4 }
    ensures deep { outcome rows.deep ≡ breaks 34 7 }
    ensures kind_before_index { outcome rows.kind_before_index ≡ breaks 34 5 }
    ensures undeclared_index { outcome rows.undeclared_index ≡ breaks 5 8 }
    ensures index_no_constant { outcome rows.index_no_constant ≡ breaks 23 8 }
    ensures negative_without_length { outcome rows.negative_without_length ≡ breaks 34 6 }
{}

//! Initializers with function literals, whose bodies come behind the value that holds them.
ghost use Rattle.std.specs.Prelude.{◌≡◌};
ghost use Rattle.checking_rows.specs.InitializerAnswers.{outcome, breaks};
ghost use Rattle.checking_rows.specs.InitializerBodies as rows;

/// A body comes behind the rules of its value, and before the next value.
pub fn bodies()
    ensures before_next { outcome rows.body_before_next ≡ breaks 5 21 }
    ensures alone { outcome rows.body_alone ≡ breaks 5 17 }
    ensures of_constant { outcome rows.body_of_constant ≡ breaks 5 18 }
    ensures value_first { outcome rows.value_before_body ≡ breaks 16 3 }
    ensures misfit_first { outcome rows.misfit_before_body ≡ breaks 35 6 }
    ensures too_many_first { outcome rows.too_many_before_body ≡ breaks 33 15 }
{}

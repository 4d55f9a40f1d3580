//! objects of type void: what the definition of checking answers.
ghost use Rattle.std.specs.Prelude.{◌≡◌};
ghost use Rattle.checking_units.specs.Parts.{outcome, accepted, breaks};
ghost use Rattle.checking_units.specs.RowsObjectsOfTypeVoid as rows;

/// objects of type void.
pub fn rows_objects_of_type_void()
    ensures objects_of_type_void_1 { outcome rows.objects_of_type_void_1 ≡ accepted }
    ensures objects_of_type_void_2 { outcome rows.objects_of_type_void_2 ≡ breaks 11 32 }
    ensures objects_of_type_void_3 { outcome rows.objects_of_type_void_3 ≡ breaks 11 27 }
    ensures objects_of_type_void_4 { outcome rows.objects_of_type_void_4 ≡ breaks 10 33 }
    ensures objects_of_type_void_5 { outcome rows.objects_of_type_void_5 ≡ breaks 22 38 }
    ensures objects_of_type_void_6 { outcome rows.objects_of_type_void_6 ≡ breaks 22 13 }
{}

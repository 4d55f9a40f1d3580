//! what is changed and what has an address: what the definition of checking answers.
ghost use Rattle.std.specs.Prelude.{◌≡◌};
ghost use Rattle.checking_units.specs.Parts.{outcome, accepted, breaks};
ghost use Rattle.checking_units.specs.RowsWhatIsChangedAndWhatHasAnAddress as rows;

/// what is changed and what has an address.
pub fn rows_what_is_changed_and_what_has_an_address()
    ensures what_is_changed_and_what_has_an_address_1 { outcome rows.what_is_changed_and_what_has_an_address_1 ≡ breaks 10 24 }
    ensures what_is_changed_and_what_has_an_address_2 { outcome rows.what_is_changed_and_what_has_an_address_2 ≡ accepted }
    ensures what_is_changed_and_what_has_an_address_3 { outcome rows.what_is_changed_and_what_has_an_address_3 ≡ breaks 10 24 }
    ensures what_is_changed_and_what_has_an_address_4 { outcome rows.what_is_changed_and_what_has_an_address_4 ≡ breaks 10 30 }
    ensures what_is_changed_and_what_has_an_address_5 { outcome rows.what_is_changed_and_what_has_an_address_5 ≡ breaks 11 29 }
    ensures what_is_changed_and_what_has_an_address_6 { outcome rows.what_is_changed_and_what_has_an_address_6 ≡ breaks 10 39 }
    ensures what_is_changed_and_what_has_an_address_7 { outcome rows.what_is_changed_and_what_has_an_address_7 ≡ breaks 10 28 }
    ensures what_is_changed_and_what_has_an_address_8 { outcome rows.what_is_changed_and_what_has_an_address_8 ≡ accepted }
    ensures what_is_changed_and_what_has_an_address_9 { outcome rows.what_is_changed_and_what_has_an_address_9 ≡ breaks 10 61 }
    ensures what_is_changed_and_what_has_an_address_10 { outcome rows.what_is_changed_and_what_has_an_address_10 ≡ breaks 11 56 }
    ensures what_is_changed_and_what_has_an_address_11 { outcome rows.what_is_changed_and_what_has_an_address_11 ≡ breaks 10 72 }
    ensures what_is_changed_and_what_has_an_address_12 { outcome rows.what_is_changed_and_what_has_an_address_12 ≡ breaks 10 34 }
    ensures what_is_changed_and_what_has_an_address_13 { outcome rows.what_is_changed_and_what_has_an_address_13 ≡ accepted }
{}

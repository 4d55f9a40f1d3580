//! which fault comes first: what the definition of checking answers.
ghost use Rattle.std.specs.Prelude.{◌≡◌};
ghost use Rattle.checking_units.specs.Parts.{outcome, accepted, breaks};
ghost use Rattle.checking_units.specs.RowsWhichFaultComesFirst as rows;

/// which fault comes first.
pub fn rows_which_fault_comes_first()
    ensures which_fault_comes_first_1 { outcome rows.which_fault_comes_first_1 ≡ breaks 48 16 }
    ensures which_fault_comes_first_2 { outcome rows.which_fault_comes_first_2 ≡ breaks 27 8 }
    ensures which_fault_comes_first_3 { outcome rows.which_fault_comes_first_3 ≡ breaks 2 21 }
    ensures which_fault_comes_first_4 { outcome rows.which_fault_comes_first_4 ≡ breaks 2 27 }
    ensures which_fault_comes_first_5 { outcome rows.which_fault_comes_first_5 ≡ breaks 22 28 }
    ensures which_fault_comes_first_6 { outcome rows.which_fault_comes_first_6 ≡ breaks 2 28 }
    ensures which_fault_comes_first_7 { outcome rows.which_fault_comes_first_7 ≡ breaks 22 20 }
    ensures which_fault_comes_first_8 { outcome rows.which_fault_comes_first_8 ≡ breaks 3 31 }
    ensures which_fault_comes_first_9 { outcome rows.which_fault_comes_first_9 ≡ breaks 3 24 }
    ensures which_fault_comes_first_10 { outcome rows.which_fault_comes_first_10 ≡ breaks 4 92 }
    ensures which_fault_comes_first_11 { outcome rows.which_fault_comes_first_11 ≡ breaks 5 16 }
    ensures which_fault_comes_first_12 { outcome rows.which_fault_comes_first_12 ≡ breaks 5 7 }
    ensures which_fault_comes_first_13 { outcome rows.which_fault_comes_first_13 ≡ breaks 29 30 }
    ensures which_fault_comes_first_14 { outcome rows.which_fault_comes_first_14 ≡ accepted }
    ensures which_fault_comes_first_15 { outcome rows.which_fault_comes_first_15 ≡ breaks 26 48 }
    ensures which_fault_comes_first_16 { outcome rows.which_fault_comes_first_16 ≡ breaks 5 55 }
    ensures which_fault_comes_first_17 { outcome rows.which_fault_comes_first_17 ≡ breaks 5 9 }
    ensures which_fault_comes_first_18 { outcome rows.which_fault_comes_first_18 ≡ breaks 32 15 }
    ensures which_fault_comes_first_19 { outcome rows.which_fault_comes_first_19 ≡ breaks 29 1 }
    ensures which_fault_comes_first_20 { outcome rows.which_fault_comes_first_20 ≡ breaks 31 1 }
    ensures which_fault_comes_first_21 { outcome rows.which_fault_comes_first_21 ≡ breaks 31 6 }
    ensures which_fault_comes_first_22 { outcome rows.which_fault_comes_first_22 ≡ breaks 47 22 }
    ensures which_fault_comes_first_23 { outcome rows.which_fault_comes_first_23 ≡ accepted }
{}

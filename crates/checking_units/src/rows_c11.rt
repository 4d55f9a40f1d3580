//! C11: operand has no address: what the definition of checking answers.
ghost use Rattle.std.specs.Prelude.{◌≡◌};
ghost use Rattle.checking_units.specs.Parts.{outcome, breaks};
ghost use Rattle.checking_units.specs.RowsC11 as rows;

/// C11: operand has no address.
pub fn rows_c11()
    ensures c11_1 { outcome rows.c11_1 ≡ breaks 11 59 }
    ensures c11_2 { outcome rows.c11_2 ≡ breaks 11 31 }
    ensures c11_3 { outcome rows.c11_3 ≡ breaks 11 32 }
    ensures c11_4 { outcome rows.c11_4 ≡ breaks 11 40 }
{}

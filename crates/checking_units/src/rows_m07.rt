//! M07: an object has more initial values than the limit: what the definition of checking answers.
ghost use Rattle.std.specs.Prelude.{Some, true, ◌≡◌};
ghost use Rattle.checking_units.specs.Parts.{limit, is_within_limit};
ghost use Rattle.checking_units.specs.RowsM07 as rows;

/// M07: an object has more initial values than the limit.
pub fn rows_m07()
    ensures m07_1 { limit rows.m07_1 ≡ Some 22 }
    ensures m07_2 { limit rows.m07_2 ≡ Some 35 }
    ensures m07_3 { limit rows.m07_3 ≡ Some 20 }
    ensures m07_4 { is_within_limit rows.m07_4 ≡ true }
{}

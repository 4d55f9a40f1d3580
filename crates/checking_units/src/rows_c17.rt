//! C17: conversion drops a qualifier: what the definition of checking answers.
ghost use Rattle.std.specs.Prelude.{◌≡◌};
ghost use Rattle.checking_units.specs.Parts.{outcome, breaks};
ghost use Rattle.checking_units.specs.RowsC17 as rows;

/// C17: conversion drops a qualifier.
pub fn rows_c17()
    ensures c17_1 { outcome rows.c17_1 ≡ breaks 17 35 }
    ensures c17_2 { outcome rows.c17_2 ≡ breaks 17 44 }
    ensures c17_3 { outcome rows.c17_3 ≡ breaks 17 33 }
    ensures c17_4 { outcome rows.c17_4 ≡ breaks 17 44 }
    ensures c17_5 { outcome rows.c17_5 ≡ breaks 17 33 }
{}

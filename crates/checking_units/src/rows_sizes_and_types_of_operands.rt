//! sizes and types of operands: what the definition of checking answers.
ghost use Rattle.std.specs.Prelude.{◌≡◌};
ghost use Rattle.checking_units.specs.Parts.{outcome, accepted, breaks};
ghost use Rattle.checking_units.specs.RowsSizesAndTypesOfOperands as rows;

/// sizes and types of operands.
pub fn rows_sizes_and_types_of_operands()
    ensures sizes_and_types_of_operands_1 { outcome rows.sizes_and_types_of_operands_1 ≡ accepted }
    ensures sizes_and_types_of_operands_2 { outcome rows.sizes_and_types_of_operands_2 ≡ accepted }
    ensures sizes_and_types_of_operands_3 { outcome rows.sizes_and_types_of_operands_3 ≡ accepted }
    ensures sizes_and_types_of_operands_4 { outcome rows.sizes_and_types_of_operands_4 ≡ accepted }
    ensures sizes_and_types_of_operands_5 { outcome rows.sizes_and_types_of_operands_5 ≡ breaks 22 39 }
{}

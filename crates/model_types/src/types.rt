//! The parts of types that are plain data.

/// The qualifiers of a type (ISO/IEC 9899:2024, 6.7.4), the three of ownership among them.
#[derive(Clone, Copy, Debug, PartialEq, Eq)]
pub struct Quals {
    pub has_const: bool,
    pub has_restrict: bool,
    pub has_owner: bool,
    pub has_view: bool,
    pub has_opt: bool,
}

/// A structure type of a unit, by its rank in the table of the unit's structures, from 0.
#[derive(Clone, Copy, Debug, PartialEq, Eq)]
pub struct StructId(pub u32);

//! Where a token, a report or a fault stands.

/// The place of a token, or the place after the last one.
///
/// Lines and columns count from 1, a column in bytes of the file as it is. `order` is the rank of
/// the token in its list, counted from 0; of a place that is no token's it is the number of tokens
/// before it. A place comes before another where its order is smaller.
#[derive(Clone, Copy, Debug, PartialEq, Eq)]
pub struct Place {
    pub file: u32,
    pub line: u32,
    pub column: u32,
    pub order: u32,
}

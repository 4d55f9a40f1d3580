//! Why a run is undefined.

/// The cause of undefined behaviour in a run (ISO/IEC 9899:2024, 3.5.3 and annex J.2).
#[derive(Clone, Copy, Debug, PartialEq, Eq)]
pub enum Cause {
    /// A signed result out of range, or the least value divided by -1 (6.5.1).
    Overflow,
    /// A division or remainder by 0 (6.5.6).
    ZeroDivisor,
    /// A shift by a negative count or by as many bits as the type has, or one of a negative value
    /// or out of range (6.5.8).
    BadShift,
    /// The value of an object that has none yet (6.7.11).
    Uninitialised,
    /// A null pointer is followed (6.5.4.2).
    Null,
    /// An access outside of a block (6.5.7).
    Outside,
    /// An access to a block after its lifetime (6.2.4).
    Dead,
    /// A write to a string literal (6.4.5).
    ReadOnly,
    /// A load of another size or kind than was stored (6.5.1).
    Kind,
    /// An order or a difference of pointers into different blocks (6.5.7, 6.5.9).
    Apart,
    /// A call through an incompatible type (6.5.3.3).
    BadCall,
    /// A use of the value of a call that returned none (6.9.2).
    NoValue,
    /// A release of anything but the start of an unreleased heap block (7.24.3).
    BadRelease,
}

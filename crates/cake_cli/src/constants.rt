//! Constants.
ghost use Rattle.std.specs.Prelude.{◌≤◌};

/// A constant of type int, which isn't negative.
#[derive(Clone, Copy, Debug)]
pub struct IntConstant {
    pub value: u32,
    ghost fits: { value ≤ 2147483647 },
}

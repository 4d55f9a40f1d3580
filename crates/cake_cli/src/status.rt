//! How the command ends.
ghost use Rattle.std.specs.Prelude.{◌≡◌};
ghost use Rattle.cake_cli.specs.Codes.{code_of};

/// How the command ends.
#[derive(Clone, Copy, Debug, PartialEq, Eq)]
pub enum Status {
    /// Everything was written.
    Written,
    /// The unit is refused; its place stands on err.
    Refused,
    /// The words have no reading.
    Usage,
    /// A file can't be read.
    ReadFault,
    /// A put failed.
    WriteFault,
    /// Memory was wanted and not found.
    NoMemory,
    /// A limit of the command is passed.
    Limit,
}

impl Status {
    /// The exit status.
    pub fn code(&self) -> u8
        ensures { result ≡ code_of self.now }
    {
        match self {
            Status::Written => 0,
            Status::Refused => 1,
            Status::Usage => 2,
            Status::ReadFault => 3,
            Status::WriteFault => 4,
            Status::NoMemory => 5,
            Status::Limit => 6,
        }
    }
}

//! How a run of the program ends.
ghost use Rattle.std.specs.Prelude.{◌≡◌};
ghost use Rattle.mope_base.specs.StatusCode.{code_of};

/// How a run of the program ends. Each status has an exit code of its own.
#[derive(Clone, Copy, Debug, PartialEq, Eq)]
pub enum Status {
    /// The whole output was written.
    Done,
    /// The words of the command line are not those of a command.
    Usage,
    /// The input is not of the form that the command reads.
    Input,
    /// Memory did not suffice. Nothing was written.
    Memory,
    /// The input failed to be read. Nothing was written.
    ReadFault,
    /// The output failed to be written. A proper front of it was written.
    WriteFault,
}

impl Status {
    /// The exit code, from 0 to 5.
    pub fn code(self) -> u8
        ensures { result ≡ code_of self }
    {
        match self {
            Status::Done => 0,
            Status::Usage => 1,
            Status::Input => 2,
            Status::Memory => 3,
            Status::ReadFault => 4,
            Status::WriteFault => 5,
        }
    }
}

ghost use Rattle.std.specs.Prelude.{◌≡◌};
ghost use Rattle.sync_program.specs.Status.{code_of};

/// How a run of the program ended.
#[derive(Clone, Copy, Debug, PartialEq, Eq)]
pub enum Status {
    /// The whole output was written.
    Ok,
    /// The words of the command line are none that the program knows.
    Usage,
    /// The input is no schedule.
    BadSchedule,
    /// The source failed.
    ReadFault,
    /// The sink failed within the output.
    WriteFault,
    /// Memory was wanting.
    NoMemory,
    /// The input is longer than it may be.
    TooBig,
    /// The input is no message.
    BadMessage,
}

impl Status {
    /// The exit status of the process.
    pub fn code(self) -> u8
        ensures { result ≡ code_of self }
    {
        match self {
            Status::Ok => 0,
            Status::Usage => 1,
            Status::BadSchedule => 2,
            Status::ReadFault => 3,
            Status::WriteFault => 4,
            Status::NoMemory => 5,
            Status::TooBig => 8,
            Status::BadMessage => 12,
        }
    }
}

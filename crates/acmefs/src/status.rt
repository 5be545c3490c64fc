//! The exit statuses.

ghost use Rattle.std.specs.Prelude.{◌≡◌};
ghost use Rattle.acmefs.specs.Statuses.{number_of};

/// What the program exits with. Each has a number, the exit status that the manual page acmefs(1) lists.
#[derive(Clone, Copy, Debug, PartialEq, Eq)]
pub enum Status {
    /// All was done and written.
    Done,
    /// The words ask for nothing that is known.
    Usage,
    /// A line, or the whole input, is refused.
    Refused,
    /// The input failed.
    ReadFault,
    /// The output failed.
    WriteFault,
    /// A gate could not be bound or gave no connection, or a path not be dialled.
    HostFault,
    /// Memory ran out.
    NoMemory,
    /// A server doesn't speak as it should, or has ended before the lines.
    Talk,
}

impl Status {
    /// The number of the status, 0 to 7.
    pub fn number(self) -> u8
        ensures { result ≡ number_of self }
    {
        match self {
            Status::Done => 0,
            Status::Usage => 1,
            Status::Refused => 2,
            Status::ReadFault => 3,
            Status::WriteFault => 4,
            Status::HostFault => 5,
            Status::NoMemory => 6,
            Status::Talk => 7,
        }
    }
}

// How a run ended.
ghost use Rattle.std.specs.Prelude.{◌≡◌};

/// How a run ended.
#[derive(Clone, Copy, Debug, PartialEq, Eq)]
pub enum Status {
    /// All that was asked for is written.
    Done,
    /// A text or the input is refused, by the number that the message has.
    Refused(u8),
    /// The words have no form of the program.
    Usage,
    /// A text or the input cannot be read.
    ReadFault,
    /// The output or the notes cannot be written.
    WriteFault,
    NoMemory,
}

impl Status {
    ghost use Rattle.toolkit_cli.specs.Codes.{status_code};

    /// The code that the program ends with: 0 Done, 1 Refused, 2 Usage, 3 ReadFault, 4 WriteFault, 5 NoMemory.
    pub fn code(self) -> u8
        ensures { result ≡ status_code self }
    {
        match self {
            Status::Done => 0,
            Status::Refused(_) => 1,
            Status::Usage => 2,
            Status::ReadFault => 3,
            Status::WriteFault => 4,
            Status::NoMemory => 5,
        }
    }
}

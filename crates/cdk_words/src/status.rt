// How a command ends.
ghost use Rattle.std.specs.Prelude.{pos, ◌≡◌};
ghost use Rattle.cdk_words.specs.Status.{status_number};

/// How a command ended. Its number is the program's exit status.
#[derive(Clone, Copy, Debug, PartialEq, Eq)]
pub enum Status {
    /// The command was carried out.
    Done,
    /// The application has a fault.
    AppFault,
    /// The words are no command.
    BadWords,
    /// A reported property, resource or output is a fault.
    EvalFaults,
    /// A file cannot be read.
    ReadFault,
    /// A file, a directory or the output cannot be written.
    WriteFault,
    /// No memory was found. Nothing was written.
    NoMemory,
    /// The values file or the assembly misses its form.
    BadInput,
}

impl Status {
    /// 0 to 7, in the order above.
    pub fn number(self) -> i32
        ensures { result ≡ pos (status_number self) }
    {
        match self {
            Status::Done => 0,
            Status::AppFault => 1,
            Status::BadWords => 2,
            Status::EvalFaults => 3,
            Status::ReadFault => 4,
            Status::WriteFault => 5,
            Status::NoMemory => 6,
            Status::BadInput => 7,
        }
    }

    /// The exit status of the program: the number.
    pub fn code(self) -> u8
        ensures { result ≡ status_number self }
    {
        self.number() as u8
    }
}

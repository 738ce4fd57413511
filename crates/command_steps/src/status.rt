//! How a run ends, and the number that the process gives for it.
ghost use Rattle.std.specs.Prelude.{◌≡◌};
ghost use Rattle.command_steps.specs.Status.{status_of, code_of};

/// Why a command was refused: there is no answer of the kind that was asked for.
#[derive(Clone, Copy, Debug, PartialEq, Eq)]
pub enum Reason {
    /// A certificate isn't good, listed scheduler states aren't closed, no tree of cuts was found, or
    /// an event of a trace has a fault.
    No,
    /// The command words have no shape.
    Words,
    /// A file that was read has a fault.
    Input,
    /// The rows have no greatest value.
    Unbounded,
    /// The pivots, the entries of a table, the cuts or the events of a recording pass their limit.
    Budget,
    /// A number left the range that tables keep.
    Wide,
    /// A context misuses a service of the kernel in the run that was played.
    Misuse,
    /// The run that was played breaks a declaration.
    NotDeclared,
}

impl Reason {
    /// How a run ends that was refused for this reason.
    pub fn status(&self) -> Status
        ensures { result ≡ status_of self.now }
    {
        match self {
            Reason::No => Status::No,
            Reason::Words => Status::Words,
            Reason::Input => Status::Input,
            Reason::Unbounded => Status::Unbounded,
            Reason::Budget => Status::Budget,
            Reason::Wide => Status::Wide,
            Reason::Misuse => Status::Misuse,
            Reason::NotDeclared => Status::NotDeclared,
        }
    }
}

/// How a run of the program ended.
#[derive(Clone, Copy, Debug, PartialEq, Eq)]
pub enum Status {
    /// The answer is what was asked for.
    Ok,
    /// A certificate isn't good, listed scheduler states aren't closed, no tree of cuts was found, or
    /// an event of a trace has a fault.
    No,
    /// The command words have no shape.
    Words,
    /// A file that was read has a fault.
    Input,
    /// The rows have no greatest value.
    Unbounded,
    /// The pivots, the entries of a table, the cuts or the events of a recording pass their limit.
    Budget,
    /// A number left the range that tables keep.
    Wide,
    /// A context misuses a service of the kernel in the run that was played.
    Misuse,
    /// A file could not be read.
    ReadFault,
    /// The report could not be written.
    WriteFault,
    /// The allocator refused a growth.
    Memory,
    /// The run that was played breaks a declaration.
    NotDeclared,
}

impl Status {
    /// The status of the process.
    pub fn code(&self) -> u8
        ensures { result ≡ code_of self.now }
    {
        match self {
            Status::Ok => 0,
            Status::No => 1,
            Status::Words => 2,
            Status::Input => 3,
            Status::Unbounded => 4,
            Status::Budget => 5,
            Status::Wide => 6,
            Status::Misuse => 7,
            Status::ReadFault => 8,
            Status::WriteFault => 9,
            Status::Memory => 10,
            Status::NotDeclared => 11,
        }
    }
}

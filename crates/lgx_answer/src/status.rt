// How a program ends.
ghost use Rattle.std.specs.Prelude.{◌≡◌};
ghost use Rattle.lgx_answer.specs.Endings.{Said, ending_of, number};

/// What was found in the files, with a whole text. It is the ending of a call that nothing cut off.
#[derive(Clone, Copy, Debug, PartialEq, Eq)]
pub enum Verdict {
    /// What was asked for.
    Ok,
    /// The words are none of the lists of words that the program knows.
    Usage,
    /// A file is refused that should be a project, of a link the one or the other, or a report where a picture is asked for.
    Project,
    /// The file that goes with the project is refused: it is no journal, no script, no trace, or no question.
    Script,
    /// A file that is accepted breaks a law, or a line of a question holds.
    Breach,
    /// A question isn't answered: its answer is beyond a limit.
    Unknown,
}

/// How the program ends. Its number is the exit status.
#[derive(Clone, Copy, Debug, PartialEq, Eq)]
pub enum Status {
    /// The output is whole.
    Ok,
    /// The words are none of the lists of words that the program knows.
    Usage,
    /// A project's file is refused, or a picture's.
    Project,
    /// The file that goes with the project is refused.
    Script,
    /// A file that the words name could not be read.
    ReadFault,
    /// The sink failed.
    WriteFault,
    /// Out of memory.
    Memory,
    /// A file that the words name has more than 16,777,216 bytes.
    TooLong,
    /// A file that is accepted breaks a law, or a line of a question holds.
    Breach,
    /// A question isn't answered: its answer is beyond a limit.
    Unknown,
}

impl Verdict {
    /// The status of a call that put all of its text.
    pub fn status(self) -> Status
        ensures { ending_of result ≡ Said self }
    {
        match self {
            Verdict::Ok => Status::Ok,
            Verdict::Usage => Status::Usage,
            Verdict::Project => Status::Project,
            Verdict::Script => Status::Script,
            Verdict::Breach => Status::Breach,
            Verdict::Unknown => Status::Unknown,
        }
    }
}

impl Status {
    /// The exit status, from 0 to 9.
    pub fn number(self) -> u8
        ensures { result ≡ number self }
    {
        match self {
            Status::Ok => 0,
            Status::Usage => 1,
            Status::Project => 2,
            Status::Script => 3,
            Status::ReadFault => 4,
            Status::WriteFault => 5,
            Status::Memory => 6,
            Status::TooLong => 7,
            Status::Breach => 8,
            Status::Unknown => 9,
        }
    }
}

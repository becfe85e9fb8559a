//! How the program ends, and the exit status of each ending.
ghost use Rattle.std.specs.Prelude.{◌≡◌};
ghost use Rattle.stamp_main.specs.Ending.{ending_status, run_ending};

use http_front::FrontFault;

/// How the program ended.
#[derive(Clone, Copy, Debug, PartialEq, Eq)]
pub(crate) enum Ending {
    /// The command was carried out to its end.
    Done,
    /// The words were not a command.
    Usage,
    /// A read failed, or the input ended inside a request.
    ReadFault,
    /// A write failed.
    WriteFault,
    /// All reads that the program may make were made, and the input had not ended.
    TurnsUsedUp,
    /// The address could not be taken, the audit file could not be opened, or the listener failed for good.
    ListenerFault,
    /// Memory ran out.
    NoMemory,
}

impl Ending {
    /// The exit status of the process.
    pub(crate) fn status(self) -> u8
        ensures { result ≡ ending_status self }
    {
        match self {
            Ending::Done => 0,
            Ending::Usage => 2,
            Ending::ReadFault | Ending::WriteFault | Ending::TurnsUsedUp | Ending::ListenerFault =>
                3,
            Ending::NoMemory => 4,
        }
    }
}

/// How a run over a reader and a writer ends the program, whatever value the run gives if it ended well.
pub(crate) fn status_of<T>(run: &Result<T, FrontFault>) -> Ending
    ensures { result ≡ run_ending run.now }
{
    match run {
        Ok(_) => Ending::Done,
        Err(FrontFault::Read) => Ending::ReadFault,
        Err(FrontFault::Write) => Ending::WriteFault,
        Err(FrontFault::Turns) => Ending::TurnsUsedUp,
        Err(FrontFault::NoMemory) => Ending::NoMemory,
    }
}

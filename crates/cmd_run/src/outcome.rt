//! What became of a call, and its exit status.
ghost use Rattle.std.specs.Prelude.{◌≡◌};
ghost use Rattle.cmd_run.specs.Table.{code_of};

/// What became of a call, short of its writing.
#[derive(Clone, Copy, Debug, PartialEq, Eq)]
pub enum Outcome {
    /// What the words ask for was done.
    Done,
    /// The words are not in the table.
    WrongWords,
    /// The input is not in its grammar.
    Refused,
    /// A read failed.
    ReadFault,
    /// The door failed, or the one connection that was needed.
    LinkFault,
    /// The server has to answer for it.
    PeerFault,
    /// A thread could not be started.
    NoWorker,
    /// No random bytes were drawn.
    EntropyFault,
    /// The source gave more than `MOST_BYTES_READ` bytes.
    TooLong,
}

impl Outcome {
    /// The exit status.
    pub fn code(self) -> u8
        ensures { result ≡ code_of self }
    {
        match self {
            Outcome::Done => 0,
            Outcome::WrongWords => 2,
            Outcome::Refused => 3,
            Outcome::ReadFault => 4,
            Outcome::LinkFault => 7,
            Outcome::PeerFault => 8,
            Outcome::NoWorker => 9,
            Outcome::EntropyFault => 10,
            Outcome::TooLong => 11,
        }
    }
}

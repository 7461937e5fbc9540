// How a run ended: a number for the operating system, and a name.
ghost use Rattle.std.specs.Prelude.{◌≡◌, codes};
ghost use Rattle.pb_cli.specs.Status.{status_number, status_name, status_of};

use pb_words::WordsRefused;

/// How a run ended.
#[derive(Clone, Copy, Debug, PartialEq, Eq)]
pub enum Status {
    /// The input was read to its end, all of the output was written, and no record was refused.
    Done,
    /// The same, and some record was refused.
    DoneRefused,
    /// The words aren't accepted words. Nothing was read or written.
    Usage,
    /// The source failed. Nothing was written.
    ReadFault,
    /// The sink failed. What was written is a prefix of the output.
    WriteFault,
    /// The source has more bytes than the limit. Nothing was written.
    TooLarge,
    /// Memory ran out. What was written is a prefix of the output.
    NoMemory,
}

impl Status {
    /// The number with which the program exits.
    pub fn number(&self) -> u8
        ensures { result ≡ status_number self.now }
    {
        match *self {
            Status::Done => 0,
            Status::DoneRefused => 1,
            Status::Usage => 2,
            Status::ReadFault => 3,
            Status::WriteFault => 4,
            Status::TooLarge => 5,
            Status::NoMemory => 6,
        }
    }

    /// The name of the status.
    pub fn name(&self) -> &str
        ensures { result.now ≡ status_name self.now }
    {
        match *self {
            Status::Done => "Done",
            Status::DoneRefused => "DoneRefused",
            Status::Usage => "Usage",
            Status::ReadFault => "ReadFault",
            Status::WriteFault => "WriteFault",
            Status::TooLarge => "TooLarge",
            Status::NoMemory => "NoMemory",
        }
    }
}

impl From<WordsRefused> for Status {
    ghost from_gives = { λ refused status. status ≡ status_of refused };

    fn from(refused: WordsRefused) -> Status {
        match refused {
            WordsRefused::Usage => Status::Usage,
            WordsRefused::NoMemory => Status::NoMemory,
        }
    }
}

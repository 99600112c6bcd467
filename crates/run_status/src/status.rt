/// What a command ends with.
#[derive(Clone, Copy, Debug, PartialEq, Eq)]
pub enum Status {
    /// All was done, and every text is whole.
    Done,
    /// The words or the files were refused, by one line on standard error.
    Refused,
    /// Reading or writing failed.
    WorldFault,
    /// Memory ran out.
    NoMemory,
}

impl Status {
    ghost use Rattle.std.specs.Prelude.{◌≡◌};
    ghost use Rattle.run_status.specs.Answer.{exit_code};

    /// The exit status of the process: 0, 1, 2 or 3, in the order of the variants.
    pub fn code(self) -> u8
        ensures { result ≡ exit_code self }
    {
        match self {
            Status::Done => 0,
            Status::Refused => 1,
            Status::WorldFault => 2,
            Status::NoMemory => 3,
        }
    }
}

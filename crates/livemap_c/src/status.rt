//! What became of lines.
ghost use Rattle.std.specs.Prelude.{◌≡◌};
ghost use Rattle.livemap_c.specs.Statuses.{code_of};

use map_session::Done;

/// What became of a line, or of all lines of a script.
#[derive(Clone, Copy, Debug, PartialEq, Eq)]
pub enum Status {
    /// Answered, and nothing was refused.
    Answered,
    /// Answered, and a line was refused.
    Refused,
    /// The line says nothing, and has no answer.
    Silent,
    /// There was no memory for the text of an answer. The line was executed.
    NoMemory,
    /// The map had 2^40 lines, or a script might bring it there, and nothing was executed.
    WornOut,
}

impl Status {
    /// The status as C has it.
    pub fn code(self) -> u32
        ensures { result ≡ code_of self }
    {
        match self {
            Status::Answered => 0,
            Status::Refused => 1,
            Status::Silent => 2,
            Status::NoMemory => 3,
            Status::WornOut => 4,
        }
    }
}

impl From<Done> for Status {
    ghost use Rattle.livemap_c.specs.Statuses.{status_of_done};

    ghost from_gives = { λ done status. status ≡ status_of_done done };

    fn from(done: Done) -> Status {
        match done {
            Done::Answered => Status::Answered,
            Done::Refused => Status::Refused,
            Done::Silent => Status::Silent,
        }
    }
}

// How a command ends.
ghost use Rattle.std.specs.Prelude.{◌≡◌};

use kb_world::Refusal;

/// How a command ends. What a program does with it is to end with its code.
#[derive(Debug, Drop)]
pub enum End {
    Done,
    /// For a named cause; standard error ends with its line.
    Refused(Refusal),
    /// A call of the world failed.
    Fault,
    NoMemory,
    /// A sink failed, after the command's work was done.
    SinkFault,
    /// The setting's root isn't the text of a path.
    BadRoot,
    /// The setting's boot isn't the text of a path, or can't be a root beside the others.
    BadBoot,
}

impl End {
    ghost use Rattle.kb_top.specs.Run.{code_of};

    /// The exit status: 0, the refusal's number, or 70 for a fault, 71 for want of memory, 72 and 73 for a bad
    /// setting, 74 for a sink that failed.
    pub fn code(&self) -> u8
        ensures { result ≡ code_of self.now }
    {
        match self {
            End::Done => 0,
            End::Refused(refusal) => refusal.number(),
            End::Fault => 70,
            End::NoMemory => 71,
            End::BadRoot => 72,
            End::BadBoot => 73,
            End::SinkFault => 74,
        }
    }
}

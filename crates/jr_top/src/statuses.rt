ghost use Rattle.std.specs.Prelude.{◌≡◌};
ghost use Rattle.jr_top.specs.Statuses.{number_of};

use jr_files::SourceFault;
use jr_script::ScriptFault;

/// How a run ended.
#[derive(Debug, Drop)]
pub enum Status {
    /// All was read and written.
    Done,
    /// All was read and written, and what was asked for is refused.
    Refused,
    /// The words mean no command.
    Usage,
    /// The file that the word `word` names can't be read. Words are counted from 0.
    ReadFault { word: u32 },
    /// A file or the output can't be written. `stored` files were written before.
    WriteFault { stored: u32 },
    /// What the file that the word SCRIPT names holds is no script.
    BadScript(ScriptFault),
    /// What the file that the word `word` names holds is no source.
    BadSource { word: u32, fault: SourceFault },
    /// There was no memory. Nothing was written.
    NoMemory,
}

impl Status {
    /// The number that a process ends with.
    pub fn number(&self) -> u8
        ensures { result ≡ number_of self.now }
    {
        match self {
            Status::Done => 0,
            Status::Refused => 1,
            Status::Usage => 2,
            Status::ReadFault { .. } => 3,
            Status::WriteFault { .. } => 4,
            Status::BadScript(_) => 5,
            Status::BadSource { .. } => 6,
            Status::NoMemory => 7,
        }
    }
}

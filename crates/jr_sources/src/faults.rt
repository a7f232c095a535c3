//! What may be wrong with a source by itself.
ghost use Rattle.std.specs.Prelude.{◌≡◌};
ghost use Rattle.jr_sources.specs.FaultNames.{fault_name};

/// The kinds of faults that a text has without the others: those of its lexemes (JLS 3), of its
/// depth, and of its grammar (JLS 7 to 15).
#[derive(Clone, Copy, PartialEq, Eq, Debug, Drop)]
pub enum FaultKind {
    BadByte,
    OpenComment,
    OpenString,
    Escape,
    BadNumber,
    Deep,
    Syntax,
}

impl FaultKind {
    /// The name of the kind, as it is told.
    pub fn name(self) -> &'static str
        ensures { result.now ≡ fault_name self }
    {
        match self {
            FaultKind::BadByte => "BadByte",
            FaultKind::OpenComment => "OpenComment",
            FaultKind::OpenString => "OpenString",
            FaultKind::Escape => "Escape",
            FaultKind::BadNumber => "BadNumber",
            FaultKind::Deep => "Deep",
            FaultKind::Syntax => "Syntax",
        }
    }
}

/// The first thing that is wrong with a text by itself, and the byte where.
#[derive(Clone, Copy, PartialEq, Eq, Debug, Drop)]
pub struct ReadingFault {
    pub at: u32,
    pub kind: FaultKind,
}

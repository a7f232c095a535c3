//! What a walk over a member writes down.
use jr_table::{Answer, Rule};

/// What a reference finds.
#[derive(Clone, Copy, Drop)]
pub enum Finding {
    /// The local of the member that has this number.
    Local(u32),
    /// What a lookup answers, by the numbers of rows.
    Rows(Answer),
}

/// What a reference names, if it finds anything.
#[derive(Clone, Copy, Drop)]
pub enum Sought {
    Variable,
    Type,
    Method,
}

/// A note of the walk.
#[derive(Clone, Copy, Drop)]
pub enum Note {
    /// A reference that begins at this byte, and what it finds.
    Finds {
        at: u32,
        sought: Sought,
        finding: Finding,
    },
    /// A rule that is broken there.
    Breaks {
        at: u32,
        rule: Rule,
    },
}

//! What was analysed of sources.
ghost use Rattle.std.specs.Prelude.{◌≡◌};
ghost use Rattle.jr_sources.specs.HadBack.{GivesBack, table_before};

use jr_cache::Former;
use jr_program::MemberBound;
use jr_table::Table;

/// What was analysed of sources without a fault: their table, and what binding knows of their
/// members, in file and text order.
pub struct Analysis {
    pub table: Table,
    pub members: Vec<MemberBound>,
}

// Written out, so that it is proved here, once: what is derived is proved anew in each crate above,
// and in pieces in each function that lets an analysis go.
impl Drop for Analysis {
    fn drop(self) {
        let Analysis {
            table: _,
            members: _,
        } = self;
    }
}

impl Analysis {
    // The parts. What has a written drop is taken apart by its own calls alone.
    fn parts(self) -> (Table, Vec<MemberBound>)
        ensures table { result.0 ≡ self.table }
        ensures members { result.1 ≡ self.members }
    {
        let Analysis { table, members } = self;
        (table, members)
    }
}

/// What was analysed of earlier sources, and for each file whether its text is the same now.
pub struct EarlierAnalysis {
    pub analysis: Analysis,
    pub stays: Vec<bool>,
}

impl Drop for EarlierAnalysis {
    fn drop(self) {
        let EarlierAnalysis {
            analysis: _,
            stays: _,
        } = self;
    }
}

impl EarlierAnalysis {
    // The parts, and those of the analysis.
    pub(crate) fn parts(self) -> (Table, Vec<MemberBound>, Vec<bool>)
        ensures table { result.0 ≡ self.analysis.table }
        ensures members { result.1.items ≡ self.analysis.members.items }
        ensures stays { result.2.items ≡ self.stays.items }
    {
        let EarlierAnalysis { analysis, stays } = self;
        let (table, members) = analysis.parts();
        (table, members, stays)
    }

    /// What was analysed.
    pub fn into_analysis(self) -> Analysis
        ensures { result ≡ self.analysis }
    {
        let EarlierAnalysis { analysis, stays: _ } = self;
        analysis
    }
}

/// What gives back what was analysed of earlier sources, with what is analysed of the later ones.
pub struct FormerAnalysis {
    // None where the later sources have the same.
    pub(crate) table: Option<Table>,
    pub(crate) members: Former,
    pub(crate) stays: Vec<bool>,
}

impl Drop for FormerAnalysis {
    fn drop(self) {
        let FormerAnalysis {
            table: _,
            members: _,
            stays: _,
        } = self;
    }
}

// The table of earlier sources, if it isn't the same.
fn earlier_table(table: Option<Table>, later: Table) -> Table
    ensures { result ≡ table_before table later }
{
    match table {
        None => later,
        Some(table) => {
            drop(later);
            table
        }
    }
}

impl FormerAnalysis {
    fn parts(self) -> (Option<Table>, Former, Vec<bool>)
        ensures table { result.0 ≡ self.table }
        ensures members { result.1 ≡ self.members }
    {
        let FormerAnalysis {
            table,
            members,
            stays,
        } = self;
        (table, members, stays)
    }

    /// What was analysed of the earlier sources. It takes no memory.
    pub fn restore(self, later: Analysis) -> EarlierAnalysis
        ensures { GivesBack result later.table later.members.items self }
    {
        let parts = later.parts();
        let own = self.parts();
        let (table, members) = parts;
        let (before, former, stays) = own;
        let table = earlier_table(before, table);
        let members = former.restore(members);
        EarlierAnalysis {
            analysis: Analysis { table, members },
            stays,
        }
    }
}

/// The first fault of sources: the number of its file, its byte, and the name of its kind.
#[derive(Drop)]
pub struct SourceFault {
    pub file: u32,
    pub at: u32,
    pub kind: &'static str,
}

/// What comes of an analysis.
#[derive(Drop)]
pub enum Analysed {
    /// With what gives back what was analysed of earlier sources, if that was given.
    Program {
        analysis: Analysis,
        former: Option<FormerAnalysis>,
    },
    Fault(SourceFault),
}

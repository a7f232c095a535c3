//! Sources are analysed: their table is made, and their members are bound.
ghost use Rattle.std.specs.Prelude.{◌≡◌, map, IfOk, IfNone, MatchOption, None, Some};
ghost use Rattle.jr_ast.specs.View.{unit_of};
ghost use Rattle.jr_sources.specs.Analysed.{AreLexed, IsAnalysed, IsSourceFault, IsKeptAnalysis};
ghost use Rattle.jr_sources.specs.Analysed.{IsFilled, CostsBinding};
ghost use Rattle.jr_sources.specs.Earlier.{IsEarlier, IsMaybeEarlier};
ghost use Rattle.jr_sources.specs.FirstFault.{AreRead};
ghost use Rattle.jr_sources.specs.HadBack.{IsNotLost};
ghost use Rattle.jr_sources.specs.KeptReadings.{AreReadings};
ghost use Rattle.jr_sources.specs.Sources.{AreSources, texts_of};
ghost use Rattle.jr_sources.specs.Tables.{IsTableOf, HaveSameTable};

use crate::analyses::{Analysed, Analysis, EarlierAnalysis, FormerAnalysis, SourceFault};
use crate::binds::{bind_written, forget_table};
use crate::first_faults::first_of;
use crate::kept::Readings;
use crate::reading_laws::text_has_one_reading;
use crate::sources::Sources;
use jr_ast::Unit;
use jr_build::{BuildFault, build};
use jr_cache::{ChangedProgram, rebind_members};
use jr_lex::one_answer;
use jr_members::{WrittenMember, members_are_written, written_members};
use jr_program::{MemberBound, Tokens};
use jr_program_laws::{one_is_bound, parts_are_placed};
use jr_steps::Steps;
use jr_table::Table;
use jr_text::Span;
use std::alloc::{AllocError, Global};
use std::sync::ledger::Ledger;

// Files that are read, without faults: their trees, the places of their first tokens, and their
// tokens.
#[derive(Clone, Copy, Drop)]
struct ReadFiles<'a> {
    units: &'a [Unit<Span>],
    words: &'a [u32],
    tokens: &'a [Tokens],
}

fn forget_bounds(_members: Vec<MemberBound>) {}

fn forget_written(_written: Vec<WrittenMember<'_, Span>>) {}

// What is known of sources that read as units, have these tokens, and this table.
fn bind_all<L: Ledger>(
    alloc: Global,
    sources: &Sources,
    files: &ReadFiles<'_>,
    table: Table,
    earlier: &mut Option<EarlierAnalysis>,
    steps: &mut Steps<L>,
) -> Result<Analysed, AllocError>
    requires valid { AreSources sources.now }
    requires read { AreRead sources.now (map unit_of files.now.units.now) files.now.words.now }
    requires lexed { AreLexed (texts_of sources.now) files.now.tokens.now }
    requires table { IsTableOf sources.now table }
    requires earlier { IsMaybeEarlier sources.now earlier.old }
    ensures analysed { IfOk result (IsAnalysed sources.now) }
    ensures left { IfOk result (IsNotLost earlier.old earlier.new) }
    ensures cost { CostsBinding sources.now steps.old steps.new }
{
    text_has_one_reading();
    one_answer();
    members_are_written::<Span>();
    parts_are_placed();
    one_is_bound();
    table.keeps_rows();
    let Ok(written) = written_members(alloc, &table, files.units) else {
        forget_table(table);
        return Err(AllocError);
    };
    let bound = bind_written(
        alloc,
        &table,
        files.tokens,
        written.as_slice(),
        earlier,
        steps,
    );
    forget_written(written);
    match bound {
        Ok(made) => {
            let (members, former) = made;
            let analysis = Analysis { table, members };
            Ok(Analysed::Program { analysis, former })
        }
        Err(error) => {
            forget_table(table);
            Err(error)
        }
    }
}

// The same where the table is that of the earlier sources.
fn bind_same<L: Ledger>(
    alloc: Global,
    sources: &Sources,
    files: &ReadFiles<'_>,
    earlier: EarlierAnalysis,
    steps: &mut Steps<L>,
) -> Result<Analysed, AllocError>
    requires valid { AreSources sources.now }
    requires read { AreRead sources.now (map unit_of files.now.units.now) files.now.words.now }
    requires lexed { AreLexed (texts_of sources.now) files.now.tokens.now }
    requires table { IsTableOf sources.now earlier.analysis.table }
    requires earlier { IsEarlier sources.now earlier }
    ensures analysed { IfOk result (IsAnalysed sources.now) }
    ensures left { IfOk result (IsNotLost (Some earlier) None) }
    ensures cost { CostsBinding sources.now steps.old steps.new }
{
    text_has_one_reading();
    one_answer();
    members_are_written::<Span>();
    parts_are_placed();
    one_is_bound();
    let parts = earlier.parts();
    let (table, before, stays) = parts;
    table.keeps_rows();
    let Ok(written) = written_members(alloc, &table, files.units) else {
        forget_bounds(before);
        forget_table(table);
        return Err(AllocError);
    };
    let program = &ChangedProgram {
        table: &table,
        tokens: files.tokens,
        written: written.as_slice(),
        before: &table,
        stays: stays.as_slice(),
    };
    let bound = rebind_members(alloc, program, before, steps);
    forget_written(written);
    match bound {
        Ok(made) => {
            let (members, before) = made;
            let former = FormerAnalysis {
                table: None,
                members: before,
                stays,
            };
            Ok(Analysed::Program {
                analysis: Analysis { table, members },
                former: Some(former),
            })
        }
        Err(error) => {
            forget_table(table);
            Err(error)
        }
    }
}

// What is known of sources that read as units.
fn analyse_units<L: Ledger>(
    alloc: Global,
    sources: &Sources,
    files: &ReadFiles<'_>,
    known: &mut Option<Table>,
    earlier: &mut Option<EarlierAnalysis>,
    steps: &mut Steps<L>,
) -> Result<Analysed, AllocError>
    requires valid { AreSources sources.now }
    requires read { AreRead sources.now (map unit_of files.now.units.now) files.now.words.now }
    requires lexed { AreLexed (texts_of sources.now) files.now.tokens.now }
    requires earlier { IsMaybeEarlier sources.now earlier.old }
    ensures analysed { IfOk result (IsAnalysed sources.now) }
    ensures left { IfOk result (IsNotLost earlier.old earlier.new) }
    ensures cost { CostsBinding sources.now steps.old steps.new }
{
    text_has_one_reading();
    match build(alloc, files.units, files.words, known) {
        Err(BuildFault::At { file, at, kind }) => Ok(Analysed::Fault(SourceFault {
            file,
            at,
            kind: kind.name(),
        })),
        Err(BuildFault::Memory) => Err(AllocError),
        Ok(table) => bind_all(alloc, sources, files, table, earlier, steps),
    }
}

// The first file that has a fault by itself, and the first that it has. Where there is none, all
// files read as the units that are kept, and have the tokens that are.
fn file_fault(sources: &Sources, readings: &Readings) -> Option<SourceFault>
    requires valid { AreSources sources.now }
    requires readings { AreReadings (texts_of sources.now) readings.now }
    ensures found { MatchOption result
        (AreRead sources.now (map unit_of readings.now.units.items) readings.now.words.items)
        (IsSourceFault sources.now) }
    ensures lexed { IfNone result (AreLexed (texts_of sources.now) readings.now.tokens.items) }
{
    text_has_one_reading();
    match first_of(readings.faults.as_slice()) {
        None => None,
        Some((number, fault)) => Some(SourceFault {
            file: number as u32,
            at: fault.at,
            kind: fault.kind.name(),
        }),
    }
}

/// What is known of sources, or their first fault.
///
/// `known` may be a table that was made before: it is taken where it has exactly the rows of these
/// sources. `earlier` may be what was analysed of other sources: of the members of files that stay,
/// those keep what is bound of them that refer to nothing by a name in which the tables differ. It
/// isn't lost: behind a fault it is there as it was, and else it can be had back
/// ([`FormerAnalysis`]).
pub fn analyse<L: Ledger>(
    alloc: Global,
    sources: &Sources,
    readings: &Readings,
    known: &mut Option<Table>,
    earlier: &mut Option<EarlierAnalysis>,
    steps: &mut Steps<L>,
) -> Result<Analysed, AllocError>
    requires valid { AreSources sources.now }
    requires readings { AreReadings (texts_of sources.now) readings.now }
    requires earlier { IsMaybeEarlier sources.now earlier.old }
    ensures analysed { IfOk result (IsAnalysed sources.now) }
    ensures left { IfOk result (IsNotLost earlier.old earlier.new) }
    ensures cost { CostsBinding sources.now steps.old steps.new }
{
    match file_fault(sources, readings) {
        Some(fault) => Ok(Analysed::Fault(fault)),
        None => analyse_units(
            alloc,
            sources,
            &ReadFiles {
                units: readings.units.as_slice(),
                words: readings.words.as_slice(),
                tokens: readings.tokens.as_slice(),
            },
            known,
            earlier,
            steps,
        ),
    }
}

/// What is known of sources, or their first fault, where this is their table unless one of them has
/// a fault by itself.
pub fn analyse_with<L: Ledger>(
    alloc: Global,
    sources: &Sources,
    readings: &Readings,
    table: Table,
    earlier: &mut Option<EarlierAnalysis>,
    steps: &mut Steps<L>,
) -> Result<Analysed, AllocError>
    requires valid { AreSources sources.now }
    requires readings { AreReadings (texts_of sources.now) readings.now }
    requires table { IsTableOf sources.now table }
    requires earlier { IsMaybeEarlier sources.now earlier.old }
    ensures analysed { IfOk result (IsAnalysed sources.now) }
    ensures left { IfOk result (IsNotLost earlier.old earlier.new) }
    ensures cost { CostsBinding sources.now steps.old steps.new }
{
    match file_fault(sources, readings) {
        Some(fault) => {
            forget_table(table);
            Ok(Analysed::Fault(fault))
        }
        None => bind_all(
            alloc,
            sources,
            &ReadFiles {
                units: readings.units.as_slice(),
                words: readings.words.as_slice(),
                tokens: readings.tokens.as_slice(),
            },
            table,
            earlier,
            steps,
        ),
    }
}

// What is known of sources that read as units, and have the table of the earlier ones, if what was
// analysed of these is given.
fn analyse_again<L: Ledger>(
    alloc: Global,
    sources: &Sources,
    files: &ReadFiles<'_>,
    earlier: &mut Option<EarlierAnalysis>,
    steps: &mut Steps<L>,
) -> Result<Analysed, AllocError>
    requires valid { AreSources sources.now }
    requires read { AreRead sources.now (map unit_of files.now.units.now) files.now.words.now }
    requires lexed { AreLexed (texts_of sources.now) files.now.tokens.now }
    requires earlier { IsMaybeEarlier sources.now earlier.old }
    requires table { HaveSameTable sources.now earlier.old }
    ensures analysed { IfOk result (IsAnalysed sources.now) }
    ensures left { IfOk result (IsNotLost earlier.old earlier.new) }
    ensures cost { CostsBinding sources.now steps.old steps.new }
{
    match earlier.take() {
        Some(earlier) => bind_same(alloc, sources, files, earlier, steps),
        None => {
            let mut known = None;
            let analysed = analyse_units(alloc, sources, files, &mut known, earlier, steps);
            forget_known(known);
            analysed
        }
    }
}

/// What is known of sources, or their first fault, where their table is that of the earlier
/// sources, if these are given, unless one of them has a fault by itself.
pub fn analyse_same<L: Ledger>(
    alloc: Global,
    sources: &Sources,
    readings: &Readings,
    earlier: &mut Option<EarlierAnalysis>,
    steps: &mut Steps<L>,
) -> Result<Analysed, AllocError>
    requires valid { AreSources sources.now }
    requires readings { AreReadings (texts_of sources.now) readings.now }
    requires earlier { IsMaybeEarlier sources.now earlier.old }
    requires table { HaveSameTable sources.now earlier.old }
    ensures analysed { IfOk result (IsAnalysed sources.now) }
    ensures left { IfOk result (IsNotLost earlier.old earlier.new) }
    ensures cost { CostsBinding sources.now steps.old steps.new }
{
    match file_fault(sources, readings) {
        Some(fault) => Ok(Analysed::Fault(fault)),
        None => analyse_again(
            alloc,
            sources,
            &ReadFiles {
                units: readings.units.as_slice(),
                words: readings.words.as_slice(),
                tokens: readings.tokens.as_slice(),
            },
            earlier,
            steps,
        ),
    }
}

/// Lets go a table that wasn't taken.
pub fn forget_known(known: Option<Table>) {
    match known {
        Some(table) => forget_table(table),
        None => {}
    }
}

fn forget_earlier(_earlier: Option<EarlierAnalysis>) {}

fn forget_former(_former: Option<FormerAnalysis>) {}

// What is known of sources, of which nothing is known before.
fn analyse_anew<L: Ledger>(
    alloc: Global,
    sources: &Sources,
    readings: &Readings,
    steps: &mut Steps<L>,
) -> Result<Analysed, AllocError>
    requires valid { AreSources sources.now }
    requires readings { AreReadings (texts_of sources.now) readings.now }
    ensures analysed { IfOk result (IsAnalysed sources.now) }
    ensures cost { CostsBinding sources.now steps.old steps.new }
{
    let mut known = None;
    let mut earlier = None;
    let analysed = analyse(alloc, sources, readings, &mut known, &mut earlier, steps);
    forget_known(known);
    forget_earlier(earlier);
    analysed
}

/// Analyses sources, unless what they give is kept already. A fault is told, the first of the
/// sources; where there is none, what was analysed is kept.
pub fn keep_analysis<L: Ledger>(
    alloc: Global,
    sources: &Sources,
    readings: &Readings,
    kept: &mut Option<Analysis>,
    steps: &mut Steps<L>,
) -> Result<Option<SourceFault>, AllocError>
    requires valid { AreSources sources.now }
    requires readings { AreReadings (texts_of sources.now) readings.now }
    requires kept { IsKeptAnalysis sources.now kept.old }
    ensures kept { IsKeptAnalysis sources.now kept.new }
    ensures found { IfOk result (λ fault.
        MatchOption fault (IsFilled kept.new) (IsSourceFault sources.now)) }
    // Where all is kept, nothing is bound.
    ensures again { IsFilled kept.old → steps.new ≡ steps.old }
    ensures cost { CostsBinding sources.now steps.old steps.new }
{
    if kept.is_some() {
        return Ok(None);
    }
    match analyse_anew(alloc, sources, readings, steps)? {
        Analysed::Fault(fault) => Ok(Some(fault)),
        Analysed::Program { analysis, former } => {
            forget_former(former);
            *kept = Some(analysis);
            Ok(None)
        }
    }
}

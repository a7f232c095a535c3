//! New texts are tried: what is first wrong with the sources that have them is told, or else they
//! stay, with what was read and analysed of them.
ghost use Rattle.std.specs.Prelude.{◌≡◌, length, IfOk, OnErr, Some};
ghost use Rattle.jr_sources.specs.Analysed.{CostsBinding, IsAnalysed, IsAnalysis};
ghost use Rattle.jr_sources.specs.Analysed.{IsKeptAnalysis};
ghost use Rattle.jr_sources.specs.BindingErrors.{AreSound};
ghost use Rattle.jr_sources.specs.Earlier.{IsMaybeEarlier};
ghost use Rattle.jr_sources.specs.HadBack.{IsNotLost};
ghost use Rattle.jr_sources.specs.KeptReadings.{AreReadings};
ghost use Rattle.jr_sources.specs.Sources.{AreSources, texts_of};
ghost use Rattle.jr_session.specs.Changes.{put_back, AreOfFiles};
ghost use Rattle.jr_session.specs.TableTells.{TellsNow, TellsTable};
ghost use Rattle.jr_session.specs.Trying.{IsJudged, IsTried, AreSomeProgram};
ghost use Rattle.jr_session.specs.Trying.{changes_file, AreUnchanged, IsOfAnalysed};
ghost use Rattle.jr_session.specs.HadBack.{IsHadBack, IsHadBackBy, IsLeftBy, IsLeft, IsAnalysisOf};
ghost use Rattle.jr_session.specs.HadBack.{IsGiven, StaysFilled};

use crate::changes::Change;
use crate::plans::kept;
use crate::turns::{exchange_all, readings_of};
use jr_rename::After;
use jr_sources::{
    Analysed, Analysis, EarlierAnalysis, FormerAnalysis, Readings, SourceFault, Sources, Whole,
    analyse, analyse_same, analyse_with, first_error, text_has_one_reading,
};
use jr_steps::Steps;
use jr_table::Table;
use std::alloc::{AllocError, Global};
use std::mem;
use std::sync::ledger::Ledger;

/// Texts that files get, and whether they stay where nothing is wrong with the sources that have
/// them: a refactoring is refused for a lost dependence behind all that is wrong with its new
/// program.
#[derive(Drop)]
pub(crate) struct NewTexts {
    pub changes: Vec<Change>,
    pub may_stay: bool,
}

/// What comes of sources that are analysed.
#[derive(Drop)]
pub(crate) enum Judged {
    /// This is first wrong with them.
    Wrong(SourceFault),
    /// They are a program, no member of which breaks a rule, but may not stay.
    Crossed,
    /// They are a program, no member of which breaks a rule, and stay.
    Sound(Analysis),
}

/// What comes of new texts.
#[derive(Drop)]
pub(crate) enum Tried {
    /// This is first wrong with the sources that have them. The old texts are there again.
    Wrong(SourceFault),
    /// The sources that have them are a program, no member of which breaks a rule, but may not
    /// stay. The old texts are there again.
    Crossed,
    /// The sources have them now, and are a program, no member of which breaks a rule. `had` are
    /// the texts that they had.
    Sound {
        analysis: Analysis,
        had: Vec<Change>,
    },
}

// Lets go what was analysed. A call of this costs less than to let it go in each place.
fn forget(_analysis: Analysis) {}

fn forget_earlier(_earlier: Option<EarlierAnalysis>) {}

fn forget_former(_former: Option<FormerAnalysis>) {}

// What was analysed of the earlier sources, if it was.
fn had_back(former: Option<FormerAnalysis>, later: Analysis) -> Option<EarlierAnalysis>
    ensures { IsHadBack former later result }
{
    match former {
        None => {
            forget(later);
            None
        }
        Some(former) => Some(former.restore(later)),
    }
}

// What comes of sources of which no member breaks a rule. Where they may not stay, what was
// analysed of the earlier ones is there again.
fn judge_sound(
    sources: &Sources,
    readings: &Readings,
    later: Analysis,
    former: Option<FormerAnalysis>,
    earlier: &mut Option<EarlierAnalysis>,
    may_stay: bool,
) -> Judged
    requires readings { AreReadings (texts_of sources.now) readings.now }
    requires analysis { IsAnalysis sources.now later }
    requires sound { AreSound sources.now }
    ensures judged { IsJudged sources.now may_stay result }
    ensures left { IsHadBackBy former later earlier.new result }
{
    text_has_one_reading();
    sources_are_program(sources, readings, &later);
    if may_stay {
        forget_former(former);
        Judged::Sound(later)
    } else {
        *earlier = had_back(former, later);
        Judged::Crossed
    }
}

// What comes of sources that have no fault. Where a member breaks a rule, or they may not stay,
// what was analysed of the earlier sources is there again.
fn judge_analysed(
    sources: &Sources,
    readings: &Readings,
    analysis: Analysis,
    former: Option<FormerAnalysis>,
    earlier: &mut Option<EarlierAnalysis>,
    may_stay: bool,
) -> Judged
    requires readings { AreReadings (texts_of sources.now) readings.now }
    requires analysis { IsAnalysis sources.now analysis }
    ensures judged { IsJudged sources.now may_stay result }
    ensures left { IsHadBackBy former analysis earlier.new result }
{
    match first_error(sources, &analysis) {
        Some(error) => {
            *earlier = had_back(former, analysis);
            Judged::Wrong(error)
        }
        None => judge_sound(sources, readings, analysis, former, earlier, may_stay),
    }
}

/// Sources of which no member breaks a rule are a program, by what was read and analysed of them.
/// Nothing is run by it.
pub(crate) fn sources_are_program(sources: &Sources, readings: &Readings, analysis: &Analysis)
    requires readings { AreReadings (texts_of sources.now) readings.now }
    requires analysis { IsAnalysis sources.now analysis.now }
    requires sound { AreSound sources.now }
    ensures { AreSomeProgram sources.now }
{
    let _whole = Whole::new(sources, readings, analysis);
}

// What is known of sources of which this may be the table.
fn analyse_known<L: Ledger>(
    alloc: Global,
    sources: &Sources,
    readings: &Readings,
    known: Option<Table>,
    earlier: &mut Option<EarlierAnalysis>,
    steps: &mut Steps<L>,
) -> Result<Analysed, AllocError>
    requires valid { AreSources sources.now }
    requires readings { AreReadings (texts_of sources.now) readings.now }
    requires earlier { IsMaybeEarlier sources.now earlier.old }
    ensures analysed { IfOk result (IsAnalysed sources.now) }
    ensures left { IfOk result (IsNotLost earlier.old earlier.new) }
    ensures cost { CostsBinding sources.now steps.old steps.new }
{
    let mut known = known;
    let analysed = analyse(alloc, sources, readings, &mut known, earlier, steps);
    kept(analysed, known)
}

// What is known of sources, by what is known of their table.
fn analyse_told<L: Ledger>(
    alloc: Global,
    sources: &Sources,
    readings: &Readings,
    after: After,
    earlier: &mut Option<EarlierAnalysis>,
    steps: &mut Steps<L>,
) -> Result<Analysed, AllocError>
    requires valid { AreSources sources.now }
    requires readings { AreReadings (texts_of sources.now) readings.now }
    requires earlier { IsMaybeEarlier sources.now earlier.old }
    requires told { TellsNow sources.now earlier.old after }
    ensures analysed { IfOk result (IsAnalysed sources.now) }
    ensures left { IfOk result (IsNotLost earlier.old earlier.new) }
    ensures cost { CostsBinding sources.now steps.old steps.new }
{
    match after {
        After::Images(table) => analyse_with(alloc, sources, readings, table, earlier, steps),
        After::Same => analyse_same(alloc, sources, readings, earlier, steps),
        After::Maybe(table) => {
            analyse_known(alloc, sources, readings, Some(table), earlier, steps)
        }
        After::Unknown => analyse_known(alloc, sources, readings, None, earlier, steps),
    }
}

// What comes of sources that read so: their members are bound.
fn judge<L: Ledger>(
    alloc: Global,
    sources: &Sources,
    readings: &Readings,
    after: &mut After,
    earlier: &mut Option<EarlierAnalysis>,
    may_stay: bool,
    steps: &mut Steps<L>,
) -> Result<Judged, AllocError>
    requires readings { AreReadings (texts_of sources.now) readings.now }
    requires earlier { IsMaybeEarlier sources.now earlier.old }
    requires told { TellsNow sources.now earlier.old after.old }
    ensures judged { IfOk result (IsJudged sources.now may_stay) }
    ensures left { IfOk result (IsLeftBy earlier.old earlier.new) }
    ensures cost { CostsBinding sources.now steps.old steps.new }
{
    let _count = sources.count();
    let told = mem::replace(after, After::Unknown);
    match analyse_told(alloc, sources, readings, told, earlier, steps)? {
        Analysed::Program { analysis, former } => {
            Ok(judge_analysed(sources, readings, analysis, former, earlier, may_stay))
        }
        Analysed::Fault(fault) => Ok(Judged::Wrong(fault)),
    }
}

// Gives files other texts, and what these read as, unless something is wrong with the sources that
// have them, or they may not stay: then the old texts and readings are there again, and so they are
// where memory is wanted. The texts that stay are not read again.
fn try_by<L: Ledger>(
    alloc: Global,
    sources: &mut Sources,
    readings: &mut Readings,
    texts: NewTexts,
    after: &mut After,
    earlier: &mut Option<EarlierAnalysis>,
    steps: &mut Steps<L>,
) -> Result<Tried, AllocError>
    requires files { AreOfFiles (length sources.old) texts.changes.items }
    requires readings { AreReadings (texts_of sources.old) readings.old }
    requires earlier { IsMaybeEarlier (put_back sources.old texts.changes.items) earlier.old }
    requires told { TellsNow (put_back sources.old texts.changes.items) earlier.old after.old }
    ensures tried { IfOk result (IsTried sources.old texts.changes.items texts.may_stay
        sources.new) }
    ensures err { OnErr result (sources.new ≡ sources.old) }
    ensures readings { AreReadings (texts_of sources.new) readings.new }
    ensures left { IfOk result (IsLeft earlier.old earlier.new) }
    ensures cost { CostsBinding (put_back sources.old texts.changes.items) steps.old steps.new }
{
    let NewTexts { changes, may_stay } = texts;
    let with = readings_of(alloc, changes.as_slice())?;
    let mut had = Vec::with_capacity(alloc, changes.len())?;
    let mut were = Vec::with_capacity(alloc, changes.len())?;
    // Nothing fails on the way back.
    let mut spare = Vec::with_capacity(alloc, changes.len())?;
    let mut rest = Vec::with_capacity(alloc, changes.len())?;
    exchange_all(sources, readings, &mut had, &mut were, changes, with);
    match judge(alloc, sources, readings, after, earlier, may_stay, steps) {
        Ok(Judged::Sound(analysis)) => Ok(Tried::Sound { analysis, had }),
        Ok(Judged::Crossed) => {
            exchange_all(sources, readings, &mut spare, &mut rest, had, were);
            Ok(Tried::Crossed)
        }
        Ok(Judged::Wrong(fault)) => {
            exchange_all(sources, readings, &mut spare, &mut rest, had, were);
            Ok(Tried::Wrong(fault))
        }
        Err(error) => {
            exchange_all(sources, readings, &mut spare, &mut rest, had, were);
            Err(error)
        }
    }
}

// Whether the file of the number gets another text.
fn is_changed(changes: &[Change], file: u32) -> bool
    ensures { result ≡ changes_file changes.now file }
{
    changes.iter().any(|change| change.file == file)
}

// For each of so many files, whether its text stays.
fn unchanged(alloc: Global, count: u32, changes: &[Change]) -> Result<Vec<bool>, AllocError>
    ensures { IfOk result (λ stays. AreUnchanged changes.now stays.items) }
{
    let mut stays = Vec::with_capacity(alloc, count as usize)?;
    for file in 0..count {
        stays.push(!is_changed(changes, file))?;
    }
    Ok(stays)
}

// What was analysed before files got other texts, if it was.
fn earlier_of(analysed: Option<Analysis>, stays: Vec<bool>) -> Option<EarlierAnalysis>
    ensures of { IsOfAnalysed analysed stays.items result }
    ensures given { IsGiven analysed result }
{
    match analysed {
        None => None,
        Some(analysis) => Some(EarlierAnalysis { analysis, stays }),
    }
}

// What was analysed, if it was.
fn analysis_of(earlier: Option<EarlierAnalysis>) -> Option<Analysis>
    ensures { IsAnalysisOf earlier result }
{
    match earlier {
        None => None,
        Some(earlier) => Some(earlier.into_analysis()),
    }
}

/// Gives files other texts, and what these read as, unless something is wrong with the sources that
/// have them, or they may not stay: then the old texts and readings are there again, and so they
/// are where memory is wanted. The texts that stay are not read again.
///
/// `after` tells of the table of the sources that have the new texts, so that no other is made.
/// What was analysed of the old texts is taken, so that members that keep what is bound of them
/// need not be bound again; where something is wrong with the new ones it is there again, and so
/// nothing need be bound again of the old ones.
pub(crate) fn try_texts<L: Ledger>(
    alloc: Global,
    sources: &mut Sources,
    readings: &mut Readings,
    analysed: &mut Option<Analysis>,
    texts: NewTexts,
    after: &mut After,
    steps: &mut Steps<L>,
) -> Result<Tried, AllocError>
    requires files { AreOfFiles (length sources.old) texts.changes.items }
    requires readings { AreReadings (texts_of sources.old) readings.old }
    requires analysed { IsKeptAnalysis sources.old analysed.old }
    requires told { TellsTable (put_back sources.old texts.changes.items) analysed.old after.old }
    ensures tried { IfOk result (IsTried sources.old texts.changes.items texts.may_stay
        sources.new) }
    ensures err { OnErr result (sources.new ≡ sources.old) }
    ensures readings { AreReadings (texts_of sources.new) readings.new }
    ensures analysed { IsKeptAnalysis sources.new analysed.new }
    // Where the old texts are there again, all that was analysed is: of these sources nothing is
    // bound again.
    ensures filled { IfOk result (StaysFilled analysed.old analysed.new) }
    ensures cost { CostsBinding (put_back sources.old texts.changes.items) steps.old steps.new }
{
    let stays = unchanged(alloc, sources.count(), texts.changes.as_slice())?;
    let mut earlier = earlier_of(analysed.take(), stays);
    match try_by(alloc, sources, readings, texts, after, &mut earlier, steps) {
        Ok(Tried::Wrong(fault)) => {
            *analysed = analysis_of(earlier);
            Ok(Tried::Wrong(fault))
        }
        Ok(Tried::Crossed) => {
            *analysed = analysis_of(earlier);
            Ok(Tried::Crossed)
        }
        Ok(Tried::Sound { analysis, had }) => {
            forget_earlier(earlier);
            Ok(Tried::Sound { analysis, had })
        }
        Err(error) => {
            forget_earlier(earlier);
            Err(error)
        }
    }
}

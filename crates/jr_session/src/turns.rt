//! Texts are exchanged: by an edit or a refactoring, by an undoing, by a redoing.
ghost use Rattle.std.specs.Prelude.{◌≡◌, ℕ, List, ◌<◌, ◌≤◌, ◌+◌, ◌++◌, ◌∷◌, [], length, Some};
ghost use Rattle.std.specs.Prelude.{IfOk, OnOk, OnErr, Ok, true, false, vec_len, vec_capacity};
ghost use Rattle.jr_sources.specs.KeptReadings.{AreReadings};
ghost use Rattle.jr_sources.specs.Sources.{texts_of};
ghost use Rattle.jr_session.specs.Changes.{AreChanges, AreOfFiles, put_back};
ghost use Rattle.jr_session.specs.Turns.{IsChanged, IsTurn, AreAsBefore, AreExchanged};
ghost use Rattle.jr_session.specs.Turns.{IsChangeReading, AreChangeReadings, AreLastReadings};

use crate::changes::{Change, Earlier};
use jr_sources::{Reading, Readings, Sources, read};
use std::alloc::{AllocError, Global};

// Gives a file another text with its reading, and puts those that it had behind the others, which
// have room for them.
fn exchange(
    sources: &mut Sources,
    readings: &mut Readings,
    had: &mut Vec<Change>,
    were: &mut Vec<Reading>,
    change: Change,
    reading: Reading,
)
    requires number { change.file < length sources.old }
    requires room { vec_len had.old < vec_capacity had.old }
    requires space { vec_len were.old < vec_capacity were.old }
    requires readings { AreReadings (texts_of sources.old) readings.old }
    requires reading { IsChangeReading change reading }
    requires were { AreChangeReadings had.old.items were.old.items }
    ensures changed { AreExchanged sources.old (change ∷ []) had.old.items sources.new
        had.new.items }
    ensures room { vec_capacity had.new ≡ vec_capacity had.old }
    ensures space { vec_capacity were.new ≡ vec_capacity were.old }
    ensures readings { AreReadings (texts_of sources.new) readings.new }
    ensures were { AreChangeReadings had.new.items were.new.items }
{
    let number = change.file;
    let text = sources.exchange(number, change.text);
    let was = readings.exchange(number, reading);
    let change = Change { file: number, text };
    had.push_reserved(change);
    were.push_reserved(was);
}

/// Gives files other texts with their readings, the last first, and puts those that they had behind
/// the others, which have room for them.
pub(crate) fn exchange_all(
    sources: &mut Sources,
    readings: &mut Readings,
    had: &mut Vec<Change>,
    were: &mut Vec<Reading>,
    changes: Vec<Change>,
    with: Vec<Reading>,
)
    requires files { AreOfFiles (length sources.old) changes.items }
    requires room { vec_len had.old + length changes.items ≤ vec_capacity had.old }
    requires space { vec_len were.old + length changes.items ≤ vec_capacity were.old }
    requires readings { AreReadings (texts_of sources.old) readings.old }
    requires with { AreChangeReadings changes.items with.items }
    requires were { AreChangeReadings had.old.items were.old.items }
    ensures changed { AreExchanged sources.old changes.items had.old.items sources.new
        had.new.items }
    ensures readings { AreReadings (texts_of sources.new) readings.new }
    ensures were { AreChangeReadings had.new.items were.new.items }
{
    let mut changes = changes;
    let mut with = with;
    while let Some(change) = changes.pop() {
        let reading = with.pop().unwrap();
        exchange(sources, readings, had, were, change, reading);
    }
}

/// What the texts of changes read as.
pub(crate) fn readings_of(alloc: Global, changes: &[Change]) -> Result<Vec<Reading>, AllocError>
    ensures { IfOk result (λ with. AreChangeReadings changes.now with.items) }
{
    let mut with = Vec::with_capacity(alloc, changes.len())?;
    for change in changes {
        with.push(read(alloc, &change.text)?)?;
    }
    Ok(with)
}

/// Gives files other texts. Those that they had can be put back by one step, and nothing can be
/// redone.
pub(crate) fn change(
    alloc: Global,
    sources: &mut Sources,
    readings: &mut Readings,
    undo: &mut Vec<Earlier>,
    redo: &mut Vec<Earlier>,
    changes: Vec<Change>,
) -> Result<(), AllocError>
    requires files { AreOfFiles (length sources.old) changes.items }
    requires readings { AreReadings (texts_of sources.old) readings.old }
    ensures changed { OnOk result (IsChanged sources.old undo.old.items
        (put_back sources.old changes.items) sources.new undo.new.items) }
    ensures emptied { OnOk result (redo.new.items ≡ []) }
    ensures readings { AreReadings (texts_of sources.new) readings.new }
    ensures err { OnErr result (AreAsBefore sources.old undo.old.items redo.old.items
        sources.new undo.new.items redo.new.items) }
{
    let with = readings_of(alloc, changes.as_slice())?;
    let mut had = Vec::with_capacity(alloc, changes.len())?;
    let mut were = Vec::with_capacity(alloc, changes.len())?;
    undo.reserve(1)?;
    exchange_all(sources, readings, &mut had, &mut were, changes, with);
    undo.push_reserved(Earlier { changes: had });
    redo.clear();
    Ok(())
}

// What the texts of the last step read as.
fn last_readings(alloc: Global, steps: &[Earlier]) -> Result<Vec<Reading>, AllocError>
    requires { 0 < length steps.now }
    ensures { IfOk result (λ with. AreLastReadings steps.now with.items) }
{
    let step = &steps[steps.len() - 1];
    readings_of(alloc, step.changes.as_slice())
}

// Takes the last step back, whose texts have these readings. The other lists have room for it.
fn turn(
    sources: &mut Sources,
    readings: &mut Readings,
    from: &mut Vec<Earlier>,
    onto: &mut Vec<Earlier>,
    had: Vec<Change>,
    were: Vec<Reading>,
    with: Vec<Reading>,
)
    requires some { 0 < vec_len from.old }
    requires room { vec_len onto.old < vec_capacity onto.old }
    requires empty { had.items ≡ [] }
    requires none { were.items ≡ [] }
    requires long { length with.items ≤ vec_capacity had }
    requires space { length with.items ≤ vec_capacity were }
    requires changes { AreChanges (length sources.old) from.old.items }
    requires readings { AreReadings (texts_of sources.old) readings.old }
    requires with { AreLastReadings from.old.items with.items }
    ensures turn { IsTurn sources.old from.old.items onto.old.items
        sources.new from.new.items onto.new.items }
    ensures readings { AreReadings (texts_of sources.new) readings.new }
{
    let mut had = had;
    let mut were = were;
    let step = from.pop().unwrap();
    exchange_all(sources, readings, &mut had, &mut were, step.changes, with);
    onto.push_reserved(Earlier { changes: had });
}

/// Takes the last step back, which can then be taken back again. False where there is none.
pub(crate) fn turn_back(
    alloc: Global,
    sources: &mut Sources,
    readings: &mut Readings,
    from: &mut Vec<Earlier>,
    onto: &mut Vec<Earlier>,
) -> Result<bool, AllocError>
    requires changes { AreChanges (length sources.old) from.old.items }
    requires readings { AreReadings (texts_of sources.old) readings.old }
    ensures turn { IfOk result (λ turned. turned ≡ true →
        IsTurn sources.old from.old.items onto.old.items
        sources.new from.new.items onto.new.items) }
    ensures none { IfOk result (λ turned. turned ≡ false → from.old.items ≡ []) }
    ensures empty { from.old.items ≡ [] → result ≡ Ok false }
    ensures kept { IfOk result (λ turned. turned ≡ false →
        AreAsBefore sources.old from.old.items onto.old.items
        sources.new from.new.items onto.new.items) }
    ensures readings { AreReadings (texts_of sources.new) readings.new }
    ensures err { OnErr result (AreAsBefore sources.old from.old.items onto.old.items
        sources.new from.new.items onto.new.items) }
{
    if from.is_empty() {
        return Ok(false);
    }
    let with = last_readings(alloc, from.as_slice())?;
    let had = Vec::with_capacity(alloc, with.len())?;
    let were = Vec::with_capacity(alloc, with.len())?;
    onto.reserve(1)?;
    turn(sources, readings, from, onto, had, were, with);
    Ok(true)
}

//! What a walk gathers.
ghost use Rattle.std.specs.Prelude.{◌≡◌, ◌+◌, ◌∷◌, [], IfOk, OnOk, if◌then◌else◌};
ghost use Rattle.jr_rewrite.specs.Respellings.{is_respelled};
ghost use Rattle.jr_rewrite.specs.RespellingView.{front_view};
ghost use Rattle.jr_new_words.specs.ChoiceView.{choice_of, lost_of};
ghost use Rattle.jr_new_bodies.specs.Effects.{Effect, no_effect, both};
ghost use Rattle.jr_new_bodies.specs.OutputView as pure;
ghost use Rattle.jr_new_bodies.specs.OutputView.{gathered, IsStart};
ghost use Rattle.jr_new_bodies.specs.SpotView.{part_of};

use crate::spots::{PartSpot, text_of};
use jr_new_words::{Choice, Chosen, Lost};
use jr_rewrite::{Change, Front, put_before, put_behind, put_class, put_super, put_word};
use jr_text::Span;
use std::alloc::{AllocError, Global};

/// What comes of the parts that were walked: the changes of the text in order, how many references
/// are respelled, and those that are lost.
#[derive(Drop)]
pub struct Output {
    pub changes: Vec<Change>,
    pub respelled: u64,
    pub losses: Vec<Lost>,
}

/// How much was gathered at some time.
#[derive(Clone, Copy, Drop)]
pub(crate) struct Start {
    pub changes: usize,
    pub respelled: u64,
    pub losses: usize,
}

/// Nothing.
pub fn new_output(alloc: Global) -> Output
    ensures { gathered result ≡ no_effect }
{
    Output {
        changes: Vec::new(alloc),
        respelled: 0,
        losses: Vec::new(alloc),
    }
}

/// How much is gathered now.
pub(crate) fn start_of(out: &Output) -> Start
    ensures { IsStart result (gathered out.now) }
{
    Start {
        changes: out.changes.len(),
        respelled: out.respelled,
        losses: out.losses.len(),
    }
}

/// What has been gathered since then goes.
pub(crate) fn go_back(to: Start, out: &mut Output)
    ensures { (first inside : Effect) → IsStart to first → gathered out.old ≡ both first inside
        → gathered out.new ≡ first }
{
    out.changes.truncate(to.changes);
    out.respelled = to.respelled;
    out.losses.truncate(to.losses);
}

/// One more, if the word is respelled. More than numbers don't fit any memory.
fn count_with(respelled: u64, front: &Front<'_>) -> Result<u64, AllocError>
    ensures { IfOk result (λ n. n
        ≡ respelled + (if is_respelled (front_view front.now) then 1 else 0)) }
{
    if front.is_respelled() {
        match respelled.checked_add(1) {
            None => Err(AllocError),
            Some(more) => Ok(more),
        }
    } else {
        Ok(respelled)
    }
}

/// A reference is lost.
fn lose(lost: Lost, out: &mut Output) -> Result<(), AllocError>
    ensures { OnOk result (gathered out.new ≡ both (gathered out.old)
        (record { changes = []; respelled = 0; losses = lost_of lost ∷ [] })) }
{
    out.losses.push(lost)?;
    Ok(())
}

fn put_chosen(alloc: Global, word: Span, to: &Chosen, out: &mut Output) -> Result<(), AllocError>
    ensures { OnOk result (gathered out.new ≡ both (gathered out.old)
        (pure.alone (pure.becoming to.now) word)) }
{
    let to = to.as_respelling();
    put_word(alloc, &mut out.changes, word, &to)?;
    out.respelled = count_with(out.respelled, &to.front)?;
    Ok(())
}

/// What becomes of a word with nothing in front of it.
pub fn put_alone(
    alloc: Global,
    word: Span,
    choice: Choice,
    out: &mut Output,
) -> Result<(), AllocError>
    ensures { OnOk result (gathered out.new
        ≡ both (gathered out.old) (pure.alone (choice_of choice) word)) }
{
    match choice {
        Choice::Stays => Ok(()),
        Choice::Becomes(to) => put_chosen(alloc, word, &to, out),
        Choice::Loses(lost) => lose(lost, out),
    }
}

fn put_chosen_super(
    alloc: Global,
    node: Span,
    word: Span,
    to: &Chosen,
    out: &mut Output,
) -> Result<(), AllocError>
    ensures { OnOk result (gathered out.new ≡ both (gathered out.old)
        (pure.behind_super (pure.becoming to.now) node word)) }
{
    let to = to.as_respelling();
    put_super(alloc, &mut out.changes, node, word, &to)?;
    out.respelled = count_with(out.respelled, &to.front)?;
    Ok(())
}

/// What becomes of a word behind `super.`, in a node.
pub(crate) fn put_on_super(
    alloc: Global,
    node: Span,
    word: Span,
    choice: Choice,
    out: &mut Output,
) -> Result<(), AllocError>
    ensures { OnOk result (gathered out.new
        ≡ both (gathered out.old) (pure.behind_super (choice_of choice) node word)) }
{
    match choice {
        Choice::Stays => Ok(()),
        Choice::Becomes(to) => put_chosen_super(alloc, node, word, &to, out),
        Choice::Loses(lost) => lose(lost, out),
    }
}

/// What is put in front of an operand, for the word behind its dot.
pub(crate) fn put_front(
    alloc: Global,
    operand: Span,
    choice: &Choice,
    out: &mut Output,
) -> Result<(), AllocError>
    ensures { OnOk result (gathered out.new
        ≡ both (gathered out.old) (pure.in_front (choice_of choice.now) operand)) }
{
    match choice {
        Choice::Stays => Ok(()),
        Choice::Becomes(to) => put_before(alloc, &mut out.changes, operand, &to.as_respelling()),
        Choice::Loses(_) => Ok(()),
    }
}

fn put_chosen_behind(
    alloc: Global,
    operand: Span,
    word: Span,
    to: &Chosen,
    out: &mut Output,
) -> Result<(), AllocError>
    ensures { OnOk result (gathered out.new ≡ both (gathered out.old)
        (pure.put_behind (pure.chosen_of to.now) operand word)) }
{
    let to = to.as_respelling();
    put_behind(alloc, &mut out.changes, operand, word, &to)?;
    out.respelled = count_with(out.respelled, &to.front)?;
    Ok(())
}

fn leave_operand(from: Start, to: &Chosen, out: &mut Output)
    ensures { (first inside : Effect) → IsStart from first → gathered out.old ≡ both first inside
        → gathered out.new ≡ both first (pure.left_of (pure.chosen_of to.now) inside) }
{
    if to.front.as_front().drops_operand() {
        go_back(from, out);
    }
}

/// What is put behind an operand, which began there; where it goes, so does what was gathered of
/// it.
pub(crate) fn put_end(
    alloc: Global,
    operand: Span,
    word: Span,
    from: Start,
    choice: Choice,
    out: &mut Output,
) -> Result<(), AllocError>
    ensures { OnOk result ((first inside : Effect) → IsStart from first
        → gathered out.old ≡ both first inside
        → gathered out.new ≡ both first (pure.behind (choice_of choice) operand word inside)) }
{
    match choice {
        Choice::Stays => Ok(()),
        Choice::Becomes(to) => {
            leave_operand(from, &to, out);
            put_chosen_behind(alloc, operand, word, &to, out)
        }
        Choice::Loses(lost) => lose(lost, out),
    }
}

fn put_chosen_class(
    alloc: Global,
    outer: Span,
    word: Span,
    to: &Chosen,
    out: &mut Output,
) -> Result<(), AllocError>
    ensures { OnOk result (gathered out.new ≡ both (gathered out.old)
        (pure.put_class (pure.chosen_of to.now) outer word)) }
{
    let to = to.as_respelling();
    put_class(alloc, &mut out.changes, outer, word, &to)?;
    out.respelled = count_with(out.respelled, &to.front)?;
    Ok(())
}

fn leave_class(from: Start, to: &Chosen, out: &mut Output)
    ensures { (first inside : Effect) → IsStart from first → gathered out.old ≡ both first inside
        → gathered out.new ≡ both first (pure.class_left (pure.chosen_of to.now) inside) }
{
    if to.front.as_front().drops_class() {
        go_back(from, out);
    }
}

/// What is put behind the name of a class, which began there, for the name of a member class of it
/// as a type; where the class goes, so does what was gathered of its name.
pub(crate) fn put_member_class(
    alloc: Global,
    outer: Span,
    word: Span,
    from: Start,
    choice: Choice,
    out: &mut Output,
) -> Result<(), AllocError>
    ensures { OnOk result ((first inside : Effect) → IsStart from first
        → gathered out.old ≡ both first inside
        → gathered out.new ≡ both first (pure.class_end (choice_of choice) outer word inside)) }
{
    match choice {
        Choice::Stays => Ok(()),
        Choice::Becomes(to) => {
            leave_class(from, &to, out);
            put_chosen_class(alloc, outer, word, &to, out)
        }
        Choice::Loses(lost) => lose(lost, out),
    }
}

/// A choice that changes no word may lose.
pub fn keep_loss(choice: Choice, out: &mut Output) -> Result<(), AllocError>
    ensures { OnOk result (gathered out.new
        ≡ both (gathered out.old) (pure.lost (choice_of choice))) }
{
    match choice {
        Choice::Stays => Ok(()),
        Choice::Becomes(_) => Ok(()),
        Choice::Loses(lost) => lose(lost, out),
    }
}

/// So many more. More than numbers don't fit any memory.
fn more_respelled(respelled: u64, more: u64) -> Result<u64, AllocError>
    ensures { IfOk result (λ n. n ≡ respelled + more) }
{
    match respelled.checked_add(more) {
        None => Err(AllocError),
        Some(all) => Ok(all),
    }
}

/// What comes in place of an expression of which so much is asked.
pub(crate) fn put_part(
    alloc: Global,
    part: &PartSpot<'_>,
    least: u32,
    out: &mut Output,
) -> Result<(), AllocError>
    ensures { OnOk result (gathered out.new
        ≡ both (gathered out.old) (pure.in_place (part_of part.now) least)) }
{
    let respelled = more_respelled(out.respelled, part.respelled)?;
    let text = String::from_str(alloc, text_of(part, least))?;
    out.changes.push(Change {
        span: part.at,
        text,
    })?;
    out.respelled = respelled;
    Ok(())
}

//! How the type of the new local is written (JLS 4.1, 6.5.5).
ghost use Rattle.std.specs.Prelude.{◌≡◌, ◌∷◌, [], IfOk, if◌then◌else◌};
ghost use Rattle.jr_table.specs.Keys as keys;
ghost use Rattle.jr_table.specs.TypeView.{class_key_of, ty_of};
ghost use Rattle.jr_rewrite.specs.Respellings.{is_respelled};
ghost use Rattle.jr_rewrite.specs.RespellingView.{front_view};
ghost use Rattle.jr_new_words.specs.ChoiceView.{choice_of, chosen_of};
ghost use Rattle.jr_new_bodies.specs.Known.{IsKnown, context_of, mapping_of, rows_of};
ghost use Rattle.jr_extract_lists.specs.WrittenTypes.{
  CanBeWritten,
  IsAsIs,
  IsOfChoice,
  IsRespelled,
  IsWritten,
  SpellsType,
};

use jr_new_bodies::Here;
use jr_new_words::{Choice, Chosen, Lost, made_type};
use jr_rewrite::{Front, front_and_word};
use jr_table::{ClassKey, Ty};
use std::alloc::{AllocError, Global};

/// A type as it is written: its text, how many of its words are respelled, and its class, where
/// that has no spelling.
#[derive(Drop)]
pub(crate) struct WrittenType {
    pub text: String,
    pub respelled: u64,
    pub losses: Vec<Lost>,
}

fn as_is(alloc: Global, text: &str, losses: Vec<Lost>) -> Result<WrittenType, AllocError>
    ensures { IfOk result (IsAsIs text.now losses.items) }
{
    let text = String::from_str(alloc, text)?;
    Ok(WrittenType {
        text,
        respelled: 0,
        losses,
    })
}

/// This loss alone.
fn one_loss(alloc: Global, lost: Lost) -> Result<Vec<Lost>, AllocError>
    ensures { IfOk result (λ v. v.items ≡ lost ∷ []) }
{
    let mut losses = Vec::new(alloc);
    losses.push(lost)?;
    Ok(losses)
}

fn as_lost(alloc: Global, text: &str, lost: Lost) -> Result<WrittenType, AllocError>
    ensures { IfOk result (IsAsIs text.now (lost ∷ [])) }
{
    let losses = one_loss(alloc, lost)?;
    as_is(alloc, text, losses)
}

/// Whether a word with this in front of it is respelled, as a number.
fn count_of(front: &Front<'_>) -> u64
    ensures { result ≡ (if is_respelled (front_view front.now) then 1 else 0) }
{
    if front.is_respelled() { 1 } else { 0 }
}

fn respelled(alloc: Global, chosen: &Chosen) -> Result<WrittenType, AllocError>
    ensures { IfOk result (IsRespelled (chosen_of chosen.now)) }
{
    let to = chosen.as_respelling();
    let text = front_and_word(alloc, &to)?;
    Ok(WrittenType {
        text,
        respelled: count_of(&to.front),
        losses: Vec::new(alloc),
    })
}

/// By what is chosen for the class.
fn by_choice(alloc: Global, class: &ClassKey, choice: Choice) -> Result<WrittenType, AllocError>
    requires { SpellsType (choice_of choice) }
    ensures { IfOk result (IsOfChoice (class_key_of class.now) (choice_of choice)) }
{
    match choice {
        Choice::Stays => as_is(alloc, class.name.as_str(), Vec::new(alloc)),
        Choice::Becomes(chosen) => respelled(alloc, &chosen),
        Choice::Loses(lost) => as_lost(alloc, class.name.as_str(), lost),
    }
}

/// A class as it is written at a place.
fn class_type(
    alloc: Global,
    here: &Here<'_>,
    at: u32,
    class: &ClassKey,
) -> Result<WrittenType, AllocError>
    requires { IsKnown here.now }
    ensures { IfOk result (IsWritten (rows_of here.now) (mapping_of here.now)
        (context_of here.now) at (keys.class (class_key_of class.now))) }
{
    let choice = made_type(alloc, &here.scopes, at, class)?;
    by_choice(alloc, class, choice)
}

/// A type as it is written at a place: `int`, `boolean`, or a class by its name, behind that of the
/// class around it where its own name finds another one. `at` is the place of the class, if it is
/// lost: the step's. The type is that of an expression that is extracted, so it is neither `void`
/// nor that of `null`. The only fault is want of memory.
pub(crate) fn written_type(
    alloc: Global,
    here: &Here<'_>,
    at: u32,
    ty: &Ty,
) -> Result<WrittenType, AllocError>
    requires known { IsKnown here.now }
    requires kept { CanBeWritten (ty_of ty.now) }
    ensures { IfOk result (IsWritten (rows_of here.now) (mapping_of here.now)
        (context_of here.now) at (ty_of ty.now)) }
{
    match ty {
        Ty::Int => as_is(alloc, "int", Vec::new(alloc)),
        Ty::Boolean => as_is(alloc, "boolean", Vec::new(alloc)),
        Ty::Void => unreachable!(),
        Ty::Null => unreachable!(),
        Ty::Class(class) => class_type(alloc, here, at, class),
    }
}

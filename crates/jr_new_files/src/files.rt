//! What the written members of a program give, file by file.
ghost use Rattle.std.specs.Prelude.{◌≡◌, ℕ, List, Some, IfOk, IfSome, OnOk, length, map};
ghost use Rattle.std.specs.Prelude.{slice_get, option_map};
ghost use Rattle.jr_members.specs.PartView.{written_of};
ghost use Rattle.jr_new_bodies.specs.Effects.{Effect, no_effect};
ghost use Rattle.jr_new_words.specs.MappingView.{keys_of, mapping_in};
ghost use Rattle.jr_new_words.specs.Scopes.{AreTables};
ghost use Rattle.jr_new_files.specs.FileEffects.{effects_of, members_of, IsPut, AreNext, AreSoFar};
ghost use Rattle.jr_new_files.specs.Unaffected.{IsUnaffected, AvoidsAll};

use crate::part_laws::written_members_are_sound;
use crate::parts::part;
use crate::spared_laws::spared_give_nothing;
use crate::unaffected::Unaffected;
use jr_bind::View;
use jr_images::rows_are_named;
use jr_members::WrittenMember;
use jr_mentions::apart_look_alike;
use jr_new_bodies::{Output, new_output};
use jr_new_words::Tables;
use jr_text::Span;
use std::alloc::{AllocError, Global};

/// Nothing of each of so many files.
fn empty_outputs(alloc: Global, count: u32) -> Result<Vec<Output>, AllocError>
    ensures many { IfOk result (λ os. length (effects_of os.items) ≡ count) }
    ensures each { IfOk result (λ os. (file : ℕ) (e : Effect)
        → slice_get (effects_of os.items) file ≡ Some e → e ≡ no_effect) }
{
    let mut outputs = Vec::new(alloc);
    for _number in 0..count {
        outputs.push(new_output(alloc))?;
    }
    Ok(outputs)
}

// A member that avoids all that a rename changes gives nothing. Nothing is run by it.
fn avoiding_gives_nothing<V: View<Span>>(
    view: &V,
    tables: &Tables<'_>,
    unaffected: &Unaffected<'_>,
    number: u32,
    of: &WrittenMember<'_, Span>,
)
    requires rows { tables.now.before.now ≡ (V.program view.now).rows }
    requires images { AreTables tables.now }
    requires unaffected { IsUnaffected (keys_of tables.now.keys) tables.now.before.now
        unaffected.now }
    requires number { slice_get (members_of (V.program view.now)) number
        ≡ Some (written_of of.now) }
    requires avoids { AvoidsAll unaffected.now (written_of of.now) }
    ensures { (es : List Effect) → IsPut (V.program view.now) (mapping_in tables.now)
        (written_of of.now) es es }
{
    view.keeps_program();
    tables.before.keeps_rows();
    tables.after.keeps_rows();
    rows_are_named::<Span>();
    written_members_are_sound();
    apart_look_alike();
    spared_give_nothing::<Span>();
}

/// Puts what a written member gives to its file.
fn put_member<V: View<Span>>(
    alloc: Global,
    view: &V,
    tables: &Tables<'_>,
    number: u32,
    of: &WrittenMember<'_, Span>,
    outputs: &mut Vec<Output>,
) -> Result<(), AllocError>
    requires rows { tables.now.before.now ≡ (V.program view.now).rows }
    requires images { AreTables tables.now }
    requires number { slice_get (members_of (V.program view.now)) number
        ≡ Some (written_of of.now) }
    ensures { OnOk result (IsPut (V.program view.now) (mapping_in tables.now)
        (written_of of.now) (effects_of outputs.old.items) (effects_of outputs.new.items)) }
{
    let file = of.file as usize;
    if file < outputs.len() {
        let out = &mut outputs[file];
        part(alloc, view, tables, number, of, out)?;
    }
    Ok(())
}

fn member_at<'m, 'a>(
    members: &'m [WrittenMember<'a, Span>],
    number: u32,
) -> Option<&'m WrittenMember<'a, Span>>
    ensures { option_map (λ w. w.now) result ≡ slice_get members.now number }
{
    members.get(number as usize)
}

/// The same, unless the member avoids all that the rename changes.
fn put_affected<V: View<Span>>(
    alloc: Global,
    view: &V,
    tables: &Tables<'_>,
    unaffected: &Option<Unaffected<'_>>,
    number: u32,
    of: &WrittenMember<'_, Span>,
    outputs: &mut Vec<Output>,
) -> Result<(), AllocError>
    requires rows { tables.now.before.now ≡ (V.program view.now).rows }
    requires images { AreTables tables.now }
    requires unaffected { IfSome unaffected.now (IsUnaffected (keys_of tables.now.keys)
        tables.now.before.now) }
    requires number { slice_get (members_of (V.program view.now)) number
        ≡ Some (written_of of.now) }
    ensures { OnOk result (IsPut (V.program view.now) (mapping_in tables.now)
        (written_of of.now) (effects_of outputs.old.items) (effects_of outputs.new.items)) }
{
    if let Some(unaffected) = unaffected {
        if unaffected.spares(of) {
            avoiding_gives_nothing(view, tables, unaffected, number, of);
            return Ok(());
        }
    }
    put_member(alloc, view, tables, number, of, outputs)
}

/// The same of the member of a number, if there is one.
fn put_numbered<V: View<Span>>(
    alloc: Global,
    view: &V,
    tables: &Tables<'_>,
    unaffected: &Option<Unaffected<'_>>,
    members: &[WrittenMember<'_, Span>],
    number: u32,
    outputs: &mut Vec<Output>,
) -> Result<(), AllocError>
    requires rows { tables.now.before.now ≡ (V.program view.now).rows }
    requires images { AreTables tables.now }
    requires unaffected { IfSome unaffected.now (IsUnaffected (keys_of tables.now.keys)
        tables.now.before.now) }
    requires members { map written_of members.now ≡ members_of (V.program view.now) }
    ensures { OnOk result (AreNext (V.program view.now) (mapping_in tables.now)
        number (effects_of outputs.old.items) (effects_of outputs.new.items)) }
{
    match member_at(members, number) {
        None => Ok(()),
        Some(of) => put_affected(alloc, view, tables, unaffected, number, of, outputs),
    }
}

/// What the written members of a program give, by the number of the file.
pub(crate) fn all_outputs<V: View<Span>>(
    alloc: Global,
    view: &V,
    tables: &Tables<'_>,
    members: &[WrittenMember<'_, Span>],
) -> Result<Vec<Output>, AllocError>
    requires rows { tables.now.before.now ≡ (V.program view.now).rows }
    requires images { AreTables tables.now }
    requires members { map written_of members.now ≡ members_of (V.program view.now) }
    ensures { IfOk result (λ os. AreSoFar (V.program view.now) (mapping_in tables.now)
        (members_of (V.program view.now)) (effects_of os.items)) }
{
    view.keeps_program();
    let unaffected = Unaffected::new(tables);
    let mut outputs = empty_outputs(alloc, view.file_count())?;
    for number in 0..view.bound_count() {
        put_numbered(
            alloc,
            view,
            tables,
            &unaffected,
            members,
            number,
            &mut outputs,
        )?;
    }
    Ok(outputs)
}

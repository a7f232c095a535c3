//! What a written member of a program gives.
ghost use Rattle.std.specs.Prelude.{◌≡◌, ◌<◌, ℕ, Some, IfOk, length, slice_get};
ghost use Rattle.jr_members.specs.PartView.{part_of, written_of};
ghost use Rattle.jr_members.specs.WrittenMembers.{written_members};
ghost use Rattle.jr_bind.specs.Programs.{units_of};
ghost use Rattle.jr_program_laws.specs.FileParts.{begins};
ghost use Rattle.jr_new_words.specs.MappingView.{mapping_in};
ghost use Rattle.jr_new_words.specs.Scopes.{AreTables};
ghost use Rattle.jr_new_bodies.specs.OutputView.{gathered};
ghost use Rattle.jr_new_files.specs.Walking.{key_of, rows_of, mapping_of, CanWalk};
ghost use Rattle.jr_new_files.specs.Ready as ready;
ghost use Rattle.jr_new_files.specs.PartEffects as gives;
ghost use Rattle.jr_new_files.specs.Parts.{PartAdds};

use crate::beginnings::Walked;
use crate::heads::head;
use crate::members::member;
use jr_bind::{Bound, View};
use jr_members::{PartRef, WrittenMember, members_are_written};
use jr_new_bodies::Output;
use jr_new_words::Tables;
use jr_program::first_byte;
use jr_program_laws::{declared_types_are_found, parts_are_placed};
use jr_table::lookups_are_exact;
use jr_text::Span;
use std::alloc::{AllocError, Global};

/// What a part gives that is walked.
fn walk<'a, V: View<Span>>(
    alloc: Global,
    view: &V,
    file: u32,
    of: &Walked<'a>,
    part: &PartRef<'a, Span>,
    out: &mut Output,
) -> Result<(), AllocError>
    requires walked { CanWalk of.now }
    requires file { file < length (V.program view.now).files }
    requires ready { ready.PartReady (V.program view.now) file (rows_of of.now) of.now.bound.now
        of.now.from (key_of of.now) (part_of part.now) }
    ensures { IfOk result (λ _. (base : ℕ) → gives.PartGathers (V.program view.now) (rows_of of.now)
        (mapping_of of.now) (key_of of.now) base (part_of part.now) (gathered out.old)
        (gathered out.new)) }
{
    match part {
        PartRef::Head(class) => head(alloc, of, class, out),
        PartRef::Member(written) => member(alloc, view, file, of, written, out),
    }
}

/// What the written member of a number gives: what changes in the text of its file, how many
/// references are respelled, and those that are lost. It is added to what is gathered.
///
/// `tables` are those of the program and of what becomes of it. An `Err` wants memory; what was
/// gathered is of no use then.
pub(crate) fn part<V: View<Span>>(
    alloc: Global,
    view: &V,
    tables: &Tables<'_>,
    number: u32,
    of: &WrittenMember<'_, Span>,
    out: &mut Output,
) -> Result<(), AllocError>
    requires rows { tables.now.before.now ≡ (V.program view.now).rows }
    requires images { AreTables tables.now }
    requires number { slice_get (written_members begins (V.program view.now).rows
        (units_of (V.program view.now))) number ≡ Some (written_of of.now) }
    ensures { IfOk result (λ _. PartAdds (V.program view.now) (mapping_in tables.now)
        (written_of of.now) (gathered out.old) (gathered out.new)) }
{
    view.keeps_program();
    members_are_written::<Span>();
    parts_are_placed();
    lookups_are_exact();
    declared_types_are_found::<Span>();
    let walked = Walked {
        programs: *tables,
        key: &of.key,
        bound: view.bound(number),
        from: first_byte(&of.part),
    };
    walk(alloc, view, of.file, &walked, &of.part, out)
}

//! What becomes of the locals of the member that is walked: their new numbers, those that are made
//! and those that are gone.
ghost use Rattle.std.specs.Prelude.{◌≡◌, ◌+◌, ◌-◌, ◌≤◌, IfOk, IfSome, Some, length, option_map};
ghost use Rattle.jr_table.specs.Decls.{MemberKey};
ghost use Rattle.jr_table.specs.TypeView.{ty_of};
ghost use Rattle.jr_scopes.specs.Helds.{key_of};
ghost use Rattle.jr_new_words.specs.Mappings as pure;
ghost use Rattle.jr_new_words.specs.MappingView.{numbers_of, renumbering_of, gone_of};

use jr_ast::Name;
use jr_table::Ty;
use std::alloc::AllocError;

/// A local that comes with a refactoring: its name, its number, and an old type of which its type
/// is the image.
#[derive(Clone, Copy, Drop)]
pub struct MadeLocal<'a> {
    pub name: &'a Name,
    pub number: u32,
    pub ty: &'a Ty,
}

/// A local that is gone, and an old type of which what stands now at its reads has the image.
#[derive(Clone, Copy, Drop)]
pub struct GoneLocal<'a> {
    pub number: u32,
    pub ty: &'a Ty,
}

/// New numbers. The first locals have these, or are gone; the others have those from `next` on.
/// Those that are made stand behind the first `depth` of the old place. At the reads of the local
/// `gone` something else stands.
#[derive(Clone, Copy, Drop)]
pub struct Renumbering<'a> {
    pub firsts: &'a [Option<u32>],
    pub next: u32,
    pub made: &'a [MadeLocal<'a>],
    pub depth: usize,
    pub gone: Option<GoneLocal<'a>>,
}

/// What becomes of a member's locals.
#[derive(Clone, Copy, Drop)]
pub enum LocalMapping<'a> {
    AllStay,
    Renumbered(&'a Renumbering<'a>),
}

/// The number behind the first ones. Numbers that are too large don't fit any memory.
fn number_behind(next: u32, number: u32, count: usize) -> Result<u32, AllocError>
    requires { count ≤ number }
    ensures { IfOk result (λ n. n ≡ next + (number - count)) }
{
    match u32::try_from(next as usize + (number as usize - count)) {
        Ok(number) => Ok(number),
        Err(_) => Err(AllocError),
    }
}

fn renumber(r: &Renumbering<'_>, number: u32) -> Result<Option<u32>, AllocError>
    ensures { IfOk result (λ o. o ≡ pure.renumber (renumbering_of r.now) number) }
{
    match r.firsts.get(number as usize) {
        Some(to) => Ok(*to),
        None => {
            let number = number_behind(r.next, number, r.firsts.len())?;
            Ok(Some(number))
        }
    }
}

/// The new number of a local; none of one that is gone.
pub(crate) fn number_to(numbers: &LocalMapping<'_>, number: u32) -> Result<Option<u32>, AllocError>
    ensures { IfOk result (λ o. o ≡ pure.number_by (numbers_of numbers.now) number) }
{
    match *numbers {
        LocalMapping::AllStay => Ok(Some(number)),
        LocalMapping::Renumbered(r) => renumber(r, number),
    }
}

/// The new number, where it is known without memory.
pub(crate) fn number_if_kept(numbers: &LocalMapping<'_>, number: u32) -> Option<u32>
    ensures { IfSome result (λ n. pure.number_by (numbers_of numbers.now) number ≡ Some n) }
{
    match number_to(numbers, number) {
        Ok(number) => number,
        Err(_) => None,
    }
}

/// The local at whose reads something else stands.
pub(crate) fn gone_in<'a>(numbers: &LocalMapping<'a>) -> Option<&'a GoneLocal<'a>>
    ensures { option_map (λ g. gone_of g.now) result ≡ pure.gone_in (numbers_of numbers.now) }
{
    match *numbers {
        LocalMapping::AllStay => None,
        LocalMapping::Renumbered(r) => match &r.gone {
            None => None,
            Some(gone) => Some(gone),
        },
    }
}

/// The type of what stands at a read of the local of this number, if something else does.
pub(crate) fn type_for<'a>(gone: &GoneLocal<'a>, number: Option<u32>) -> Option<&'a Ty>
    ensures { (k : MemberKey) → option_map (λ t. ty_of t.now) result
        ≡ pure.type_for (gone_of gone.now) (option_map (key_of k) number) }
{
    match number {
        None => None,
        Some(number) => {
            if number == gone.number {
                Some(gone.ty)
            } else {
                None
            }
        }
    }
}

//! Steps are put behind those that were there.
ghost use Rattle.std.specs.Prelude.{◌≡◌, ◌++◌, ◌∷◌, [], OnOk};
ghost use Rattle.jr_table.specs.Decls as decls;
ghost use Rattle.jr_cover.specs.Sites.{What, at_place};
ghost use Rattle.jr_expr_sites.specs.Routes.{Walked, done, nothing};
ghost use Rattle.jr_expr_sites.specs.Routes as route;
ghost use Rattle.jr_expr_sites.specs.KnownFacts.{Given};
ghost use Rattle.jr_expr_sites.specs.Steps as pure;
ghost use Rattle.jr_expr_sites.specs.StepView.{given, step_of, steps_in, what_of};

use crate::here::{Here, Meaning, meaning_at};
use crate::step::{Site, Step, What};
use jr_table::Facts;
use std::alloc::AllocError;

/// Puts a step.
pub fn put<'a>(step: Step<'a>, out: &mut Vec<Step<'a>>) -> Result<(), AllocError>
    ensures { (key : decls.MemberKey) → OnOk result (steps_in key out.new.items
        ≡ steps_in key out.old.items ++ step_of key step.entry ∷ []) }
{
    out.push(step)?;
    Ok(())
}

/// Puts a piece without sites.
pub fn put_nothing<'a>(out: &mut Vec<Step<'a>>) -> Result<(), AllocError>
    ensures { (g : Given) → OnOk result (Walked g nothing out.old.items out.new.items) }
{
    put(Step::Pass, out)
}

/// Puts a site.
pub fn put_site<'a>(at: u32, what: What<'a>, out: &mut Vec<Step<'a>>) -> Result<(), AllocError>
    ensures { (g : Given) → OnOk result (Walked g (done (what_of what.entry) at)
        out.old.items out.new.items) }
{
    put(Step::Site(Site { at, what }), out)
}

/// Puts a step behind two pieces, which are one behind the other.
pub fn put_row<'a>(out: &mut Vec<Step<'a>>) -> Result<(), AllocError>
    ensures { (key : decls.MemberKey) → OnOk result (steps_in key out.new.items
        ≡ steps_in key out.old.items ++ pure.row ∷ []) }
{
    put(Step::Row, out)
}

/// Puts the ends of a list with so many parts.
pub fn put_rows<'a>(count: usize, out: &mut Vec<Step<'a>>) -> Result<(), AllocError>
    ensures { (key : decls.MemberKey) → OnOk result (steps_in key out.new.items
        ≡ steps_in key out.old.items ++ pure.rows count) }
{
    for _number in 0..count {
        put_row(out)?;
    }
    Ok(())
}

/// Puts what reading a name does.
pub(crate) fn load<'a, F: Facts>(
    here: &Here<'a, F>,
    at: u32,
    out: &mut Vec<Step<'a>>,
) -> Result<(), AllocError>
    ensures { OnOk result (Walked (given F.decls F.types here.now) (route.load at)
        out.old.items out.new.items) }
{
    match meaning_at(here, at) {
        Meaning::Local(number) => put_site(at, What::Reads(number), out),
        Meaning::Field(key) => put_site(at, What::Loads(key), out),
        Meaning::Class => put_nothing(out),
        Meaning::Nothing => put_nothing(out),
    }
}

/// Puts what writing a name does.
pub(crate) fn store<'a, F: Facts>(
    here: &Here<'a, F>,
    at: u32,
    out: &mut Vec<Step<'a>>,
) -> Result<(), AllocError>
    ensures { OnOk result (Walked (given F.decls F.types here.now) (route.store at)
        out.old.items out.new.items) }
{
    match meaning_at(here, at) {
        Meaning::Local(number) => put_site(at, What::Writes(number), out),
        Meaning::Field(key) => put_site(at, What::Stores(key), out),
        Meaning::Class => put_nothing(out),
        Meaning::Nothing => put_nothing(out),
    }
}

/// Puts what reading a field behind a dot does.
pub(crate) fn field_load<'a, F: Facts>(
    here: &Here<'a, F>,
    at: u32,
    out: &mut Vec<Step<'a>>,
) -> Result<(), AllocError>
    ensures { OnOk result (Walked (given F.decls F.types here.now) (route.field_load at)
        out.old.items out.new.items) }
{
    match meaning_at(here, at) {
        Meaning::Local(_) => put_nothing(out),
        Meaning::Field(key) => put_site(at, What::Loads(key), out),
        Meaning::Class => put_nothing(out),
        Meaning::Nothing => put_nothing(out),
    }
}

/// Puts what writing a field behind a dot does.
pub(crate) fn field_store<'a, F: Facts>(
    here: &Here<'a, F>,
    at: u32,
    out: &mut Vec<Step<'a>>,
) -> Result<(), AllocError>
    ensures { OnOk result (Walked (given F.decls F.types here.now) (route.field_store at)
        out.old.items out.new.items) }
{
    match meaning_at(here, at) {
        Meaning::Local(_) => put_nothing(out),
        Meaning::Field(key) => put_site(at, What::Stores(key), out),
        Meaning::Class => put_nothing(out),
        Meaning::Nothing => put_nothing(out),
    }
}

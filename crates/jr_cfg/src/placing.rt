//! Sites as they are handed out.
ghost use Rattle.std.specs.Prelude.{◌≡◌, ◌++◌, ◌∷◌, [], Some, map, option_map, IfOk, OnOk};
ghost use Rattle.std.specs.List.{list_any};
ghost use Rattle.jr_runs.specs.Reordering as kinds;
ghost use Rattle.jr_code.specs.RunRows.{is_volatile_word};
ghost use Rattle.jr_sync.specs.declared.sites.Site.TheVariants as shown;
ghost use Rattle.jr_table.specs.Context.{is_final_word};
ghost use Rattle.jr_table.specs.Decls as decls;
ghost use Rattle.jr_table.specs.KeyView.{field_key_of, local_key_of, member_key_of};
ghost use Rattle.jr_sites.specs.SiteView as view;
ghost use Rattle.jr_expr_sites.specs.Meanings.{field_kind, row_of};
ghost use Rattle.jr_cfg.specs.Placed.{by_kind, own_local, placed};
ghost use Rattle.jr_cfg.specs.Seen.{seen};
ghost use Rattle.jr_cfg.specs.SiteSteps as pure;
ghost use Rattle.jr_expr_sites.specs.Steps.{sites_in};
ghost use Rattle.jr_expr_sites.specs.StepView.{given, site_of, step_of, steps_in, what_of};

use jr_ast::ModWord;
use jr_expr_sites::{Here, Site as Done, Step, What, field_number};
use jr_sites::PlacedSite;
use jr_sync::{Kind, Site};
use jr_table::{Facts, FieldKey, LocalKey, MemberKey, Mods, Table};
use std::alloc::{AllocError, Global};

type OwnSite = Site<FieldKey, LocalKey>;

/// The modifiers of a field's row, if it has one.
fn modifiers<'a>(table: &'a Table, key: &FieldKey) -> Option<&'a Mods>
    ensures { option_map (λ m. m.now) result
        ≡ option_map (λ r. r.modifiers) (row_of table.now (field_key_of key.now)) }
{
    let Some(number) = field_number(table, key) else {
        return None;
    };
    match table.rows().get(number as usize) {
        None => None,
        Some(row) => Some(&row.modifiers),
    }
}

fn is_final_word(word: &ModWord) -> bool
    ensures { result ≡ is_final_word word.now }
{
    match word {
        ModWord::Final => true,
        _ => false,
    }
}

fn is_final(words: &Mods) -> bool
    ensures { result ≡ list_any is_final_word words.now }
{
    words.as_slice().iter().any(is_final_word)
}

fn is_volatile_word(word: &ModWord) -> bool
    ensures { result ≡ is_volatile_word word.now }
{
    match word {
        ModWord::Volatile => true,
        _ => false,
    }
}

fn is_volatile(words: &Mods) -> bool
    ensures { result ≡ list_any is_volatile_word words.now }
{
    words.as_slice().iter().any(is_volatile_word)
}

/// Of a field the kind of its accesses (JLS 17.4.2): the one where it is plain, the other where it
/// is volatile.
fn access_kind(table: &Table, key: &FieldKey, plain: Kind, volatile: Kind) -> Kind
    ensures { result ≡ by_kind plain volatile (field_kind table.now (field_key_of key.now)) }
{
    match modifiers(table, key) {
        None => plain,
        Some(words) => {
            if is_final(words) {
                return Kind::Still;
            }
            if is_volatile(words) {
                return volatile;
            }
            plain
        }
    }
}

/// A local of a member.
fn own_local(member: &MemberKey, number: u32) -> Result<LocalKey, AllocError>
    ensures { IfOk result (λ l. local_key_of l ≡ own_local (member_key_of member.now) number) }
{
    let member = member.copy()?;
    Ok(LocalKey { member, number })
}

fn read(member: &MemberKey, number: u32) -> Result<OwnSite, AllocError>
    ensures { IfOk result (λ s. view.site_of s
        ≡ shown.Read (own_local (member_key_of member.now) number)) }
{
    let local = own_local(member, number)?;
    Ok(Site::Read(local))
}

fn write(member: &MemberKey, number: u32) -> Result<OwnSite, AllocError>
    ensures { IfOk result (λ s. view.site_of s
        ≡ shown.Write (own_local (member_key_of member.now) number)) }
{
    let local = own_local(member, number)?;
    Ok(Site::Write(local))
}

/// An access of a field.
fn access(kind: Kind, key: &FieldKey) -> Result<OwnSite, AllocError>
    ensures { IfOk result (λ s. view.site_of s
        ≡ shown.Access kind (Some (field_key_of key.now))) }
{
    let key = key.copy()?;
    Ok(Site::Access(kind, Some(key)))
}

fn loads(table: &Table, key: &FieldKey) -> Result<OwnSite, AllocError>
    ensures { IfOk result (λ s. view.site_of s
        ≡ shown.Access (kinds.load_kind (field_kind table.now (field_key_of key.now)))
        (Some (field_key_of key.now))) }
{
    access(access_kind(table, key, Kind::Load, Kind::VolatileLoad), key)
}

fn stores(table: &Table, key: &FieldKey) -> Result<OwnSite, AllocError>
    ensures { IfOk result (λ s. view.site_of s
        ≡ shown.Access (kinds.store_kind (field_kind table.now (field_key_of key.now)))
        (Some (field_key_of key.now))) }
{
    access(
        access_kind(table, key, Kind::Store, Kind::VolatileStore),
        key,
    )
}

/// What is done at a site, as it is handed out.
fn own_site(table: &Table, member: &MemberKey, what: &What<'_>) -> Result<OwnSite, AllocError>
    ensures { IfOk result (λ s. view.site_of s
        ≡ seen (field_kind table.now) (λ f. f) (own_local (member_key_of member.now))
        (what_of what.now)) }
{
    match what {
        What::Reads(number) => read(member, *number),
        What::Writes(number) => write(member, *number),
        What::Loads(key) => loads(table, key),
        What::Stores(key) => stores(table, key),
        What::Enters => Ok(Site::Access(Kind::Enter, None)),
        What::Exits => Ok(Site::Access(Kind::Exit, None)),
        What::Creates => Ok(Site::Access(Kind::Still, None)),
        What::Checks => Ok(Site::Check),
        What::Calls => Ok(Site::Call),
        What::Loops => Ok(Site::Loop),
    }
}

/// A site as it is handed out.
fn placed_site<F: Facts>(here: &Here<'_, F>, done: &Done<'_>) -> Result<PlacedSite, AllocError>
    ensures { IfOk result (λ s. view.placed_of s ≡ placed (given F.decls F.types here.now)
        (site_of (given F.decls F.types here.now).member done.now)) }
{
    let site = own_site(here.table, here.member, &done.what)?;
    Ok(PlacedSite {
        at: done.at.saturating_sub(here.start),
        site,
    })
}

/// The site of a step, if it has one.
fn site_in<'a, 'b>(step: &'b Step<'a>) -> Option<&'b Done<'a>>
    ensures { (key : decls.MemberKey) → option_map (λ s. site_of key s.now) result
        ≡ pure.site_in (step_of key step.now) }
{
    match step {
        Step::Site(site) => Some(site),
        Step::Opens(site) => Some(site),
        Step::Closes(site) => Some(site),
        Step::Pass => None,
        Step::Row => None,
        Step::Fork => None,
        Step::Leave => None,
        Step::Turns => None,
    }
}

/// Puts a site, if the step has one.
fn put_placed<F: Facts>(
    here: &Here<'_, F>,
    step: &Step<'_>,
    list: &mut Vec<PlacedSite>,
) -> Result<(), AllocError>
    ensures { OnOk result (map view.placed_of list.new.items ≡ map view.placed_of list.old.items
        ++ map (placed (given F.decls F.types here.now))
        (sites_in (step_of (given F.decls F.types here.now).member step.now ∷ []))) }
{
    match site_in(step) {
        None => Ok(()),
        Some(done) => {
            let site = placed_site(here, done)?;
            list.push(site)?;
            Ok(())
        }
    }
}

/// The sites among steps, in their order.
pub fn placed_sites<F: Facts>(
    alloc: Global,
    here: &Here<'_, F>,
    steps: &[Step<'_>],
) -> Result<Vec<PlacedSite>, AllocError>
    ensures { IfOk result (λ list. map view.placed_of list.items
        ≡ map (placed (given F.decls F.types here.now))
        (sites_in (steps_in (given F.decls F.types here.now).member steps.now))) }
{
    let mut list = Vec::new(alloc);
    for step in steps {
        put_placed(here, step, &mut list)?;
    }
    Ok(list)
}

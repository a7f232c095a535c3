//! What is known at a place of a member, in both programs.
ghost use Rattle.std.specs.Prelude.{◌≡◌, ◌++◌, [], map, OnOk, option_to_list};
ghost use Rattle.jr_table.specs.Entries.{class_of_member};
ghost use Rattle.jr_table.specs.TypeView.{class_key_of};
ghost use Rattle.jr_table.specs.KeyView.{member_key_of};
ghost use Rattle.jr_scopes.specs.Helds.{held_of};
ghost use Rattle.jr_scopes.specs.Tracked.{Tracked, locals_of, helds_of};
ghost use Rattle.jr_new_words.specs.MappingView.{numbers_of, made_of};
ghost use Rattle.jr_new_words.specs.Scopes.{PutsDepth, made_held};

use crate::mappings::{class_to, local_name, member_to};
use crate::numbers::{
    GoneLocal, LocalMapping, MadeLocal, Renumbering, gone_in, number_to, type_for,
};
use crate::programs::Tables;
use jr_ast::Name;
use jr_lookup::{Scope, ScopeLocals};
use jr_scopes::{Held, HeldType, Locals};
use jr_table::{ClassKey, MemberKey, Ty};
use std::alloc::{AllocError, Global};

/// What is known at a place of a member besides the tables: the locals in scope, and their images.
#[derive(Drop)]
pub struct Scopes<'a> {
    pub programs: Tables<'a>,
    pub member: &'a MemberKey,
    /// The locals and parameters in scope, the last declared at the end (JLS 6.3).
    pub locals: Locals<'a>,
    /// The local in whose initializer the place stands.
    pub own: Option<u32>,
    /// What becomes of them.
    pub(crate) numbers: LocalMapping<'a>,
    /// The locals of the new place: with their new names and numbers, and the old types.
    pub(crate) renamed: Locals<'a>,
    /// Where not all stay, how many of these there are for those in front of each old one.
    pub(crate) depths: Vec<usize>,
    /// The member's image.
    pub(crate) image: MemberKey,
    /// The place without its locals, in both programs.
    pub(crate) before: Scope,
    pub(crate) after: Scope,
}

/// The class of a member.
pub(crate) fn class_of_member(member: &MemberKey) -> &ClassKey
    ensures { class_key_of result.now ≡ class_of_member (member_key_of member.now) }
{
    match member {
        MemberKey::Head(key) => key,
        MemberKey::Field(key) => &key.class,
        MemberKey::Method(key) => &key.class,
        MemberKey::Ctor(key) => &key.class,
    }
}

/// A place of a class, without locals.
fn bare(alloc: Global, class: ClassKey, is_static: bool) -> Scope
    ensures class { class_key_of result.class ≡ class_key_of class }
    ensures is_static { result.is_static ≡ is_static }
    ensures locals { result.locals ≡ [] }
{
    let locals = ScopeLocals::from_vec(Vec::new(alloc));
    Scope {
        class,
        is_static,
        locals,
    }
}

/// Puts the number of new locals behind the others, where not all stay.
fn put_depth(
    numbers: &LocalMapping<'_>,
    count: usize,
    depths: &mut Vec<usize>,
) -> Result<(), AllocError>
    ensures { OnOk result (PutsDepth (numbers_of numbers.now) count depths.old.items
        depths.new.items) }
{
    match *numbers {
        LocalMapping::AllStay => Ok(()),
        LocalMapping::Renumbered(_) => {
            depths.push(count)?;
            Ok(())
        }
    }
}

/// Puts a local behind the others, if there is one.
fn put_image<'a>(image: Option<Held<'a>>, locals: &mut Locals<'a>) -> Result<(), AllocError>
    requires { Tracked locals.old }
    ensures locals { OnOk result (locals_of locals.new
        ≡ locals_of locals.old ++ option_to_list image.entry) }
    ensures tracked { OnOk result (Tracked locals.new) }
{
    match image {
        None => Ok(()),
        Some(image) => locals.push(image),
    }
}

/// A local that is made, as it is held.
fn held_made<'a>(made: &MadeLocal<'a>) -> Held<'a>
    ensures { held_of result ≡ made_held (made_of made.now) }
{
    Held {
        name: made.name,
        number: made.number,
        is_final: false,
        ty: HeldType::Known(made.ty),
        has_init: true,
        kind: None,
    }
}

/// Puts those that are made behind the others.
fn put_made<'a>(made: &[MadeLocal<'a>], locals: &mut Locals<'a>) -> Result<(), AllocError>
    requires { Tracked locals.old }
    ensures locals { OnOk result (helds_of locals.new
        ≡ helds_of locals.old ++ map (λ m. made_held (made_of m)) made.now) }
    ensures tracked { OnOk result (Tracked locals.new) }
{
    for one in made {
        locals.push(held_made(one))?;
    }
    Ok(())
}

impl<'a> Scopes<'a> {
    ghost use Rattle.std.specs.Prelude.{
      ◌≡◌,
      ◌<◌,
      [],
      ◌∷◌,
      ◌++◌,
      map,
      length,
      take,
      IfOk,
      OnOk,
      Some,
      option_map,
      option_to_list,
    };
    ghost use Rattle.jr_table.specs.HeadRules.{plain};
    ghost use Rattle.jr_scopes.specs.Helds.{held_of, local_of};
    ghost use Rattle.jr_table.specs.TypeView.{ty_of};
    ghost use Rattle.jr_new_words.specs.Mappings.{renumbered, member_to, if_kept, number_by};
    ghost use Rattle.jr_new_words.specs.Mappings.{type_read, gone_in};
    ghost use Rattle.jr_new_words.specs.MappingView.{gone_of};
    ghost use Rattle.jr_new_words.specs.MappingView.{keys_of, numbers_of, renumbering_of, mapping_in};
    ghost use Rattle.jr_new_words.specs.Scopes.{
      AreTables,
      IsBare,
      Makes,
      IsKept,
      IsDeep,
      AreBeside,
      new_locals,
      rows_of,
      mapping_of,
      member_of,
      locals_in,
      context_of,
    };

    /// A place of a member, before any local is declared. Of its locals this becomes; none is made.
    pub fn begin_with(
        alloc: Global,
        tables: &Tables<'a>,
        member: &'a MemberKey,
        is_static: bool,
        numbers: LocalMapping<'a>,
    ) -> Result<Scopes<'a>, AllocError>
        requires tables { AreTables tables.now }
        requires bare { IsBare (numbers_of numbers) }
        ensures kept { IfOk result (λ s. IsKept s) }
        ensures context { IfOk result (λ s.
            context_of s ≡ plain (member_key_of member.now) is_static) }
        ensures rows { IfOk result (λ s. rows_of s ≡ tables.now.before.now) }
        ensures mapping { IfOk result (λ s. mapping_of s
            ≡ record {
              keys = keys_of tables.now.keys;
              locals = numbers_of numbers.entry;
              new = tables.now.after.now;
            }) }
    {
        let class = class_of_member(member);
        let before = bare(alloc, class.copy()?, is_static);
        let after = bare(alloc, class_to(&tables.keys, class)?, is_static);
        let image = member_to(alloc, &tables.keys, member)?;
        let programs = Tables {
            before: tables.before,
            after: tables.after,
            keys: tables.keys,
        };
        Ok(Scopes {
            programs,
            member,
            locals: Locals::new(alloc),
            own: None,
            numbers,
            renamed: Locals::new(alloc),
            depths: Vec::new(alloc),
            image,
            before,
            after,
        })
    }

    /// A place of a member whose locals all stay, before any is declared.
    pub fn begin(
        alloc: Global,
        tables: &Tables<'a>,
        member: &'a MemberKey,
        is_static: bool,
    ) -> Result<Scopes<'a>, AllocError>
        requires { AreTables tables.now }
        ensures kept { IfOk result (λ s. IsKept s) }
        ensures context { IfOk result (λ s.
            context_of s ≡ plain (member_key_of member.now) is_static) }
        ensures rows { IfOk result (λ s. rows_of s ≡ tables.now.before.now) }
        ensures mapping { IfOk result (λ s. mapping_of s ≡ mapping_in tables.now) }
    {
        Scopes::begin_with(alloc, tables, member, is_static, LocalMapping::AllStay)
    }

    /// Brings those that are made into scope, behind the locals that are there.
    pub fn make(&mut self, numbers: &'a Renumbering<'a>) -> Result<(), AllocError>
        requires kept { IsKept self.old }
        requires makes { Makes (mapping_of self.old).locals (renumbering_of numbers.now)
            (length (locals_in self.old)) }
        ensures kept { OnOk result (IsKept self.new) }
        ensures rows { OnOk result (rows_of self.new ≡ rows_of self.old) }
        ensures context { OnOk result (context_of self.new ≡ context_of self.old) }
        ensures mapping { OnOk result (mapping_of self.new ≡ record {
          keys = (mapping_of self.old).keys;
          locals = renumbered (renumbering_of numbers.now);
          new = (mapping_of self.old).new;
        }) }
    {
        put_made(numbers.made, &mut self.renamed)?;
        self.numbers = LocalMapping::Renumbered(numbers);
        Ok(())
    }

    /// How many locals are in scope.
    pub fn len(&self) -> usize
        ensures { result ≡ length (locals_in self.now) }
    {
        self.locals.len()
    }

    /// The place is now in the initializer of this local, or of none.
    pub fn set_own(&mut self, own: Option<u32>)
        requires { IsKept self.old }
        ensures kept { IsKept self.new }
        ensures beside { AreBeside self.old self.new }
        ensures locals { locals_in self.new ≡ locals_in self.old }
        ensures own { self.new.own ≡ own }
    {
        self.own = own;
    }

    /// The local at whose reads something else stands, if there is one.
    pub fn gone(&self) -> Option<&'a GoneLocal<'a>>
        ensures { option_map (λ g. gone_of g.now) result ≡ gone_in (mapping_of self.now).locals }
    {
        gone_in(&self.numbers)
    }

    /// The old type of what stands where the name is read, if it finds the local that is gone.
    pub fn type_read(&self, gone: &GoneLocal<'a>, name: &Name) -> Option<&'a Ty>
        requires { IsKept self.now }
        ensures { option_map (λ t. ty_of t.now) result
            ≡ type_read (gone_of gone.now) (context_of self.now) (Some name.now) }
    {
        type_for(gone, self.locals.number_named(name))
    }

    /// What becomes of a local, if it isn't gone.
    fn image_of(&self, held: &Held<'a>) -> Result<Option<Held<'a>>, AllocError>
        ensures { IfOk result (λ o. map (local_of (member_to (mapping_of self.now)
            (member_of self.now))) (map held_of (option_to_list o))
            ≡ if_kept (mapping_of self.now).keys
            (number_by (mapping_of self.now).locals held.now.number)
            (local_of (member_of self.now) (held_of held.now))) }
    {
        let number = number_to(&self.numbers, held.number)?;
        match number {
            None => Ok(None),
            Some(number) => Ok(Some(Held {
                name: local_name(&self.programs.keys, self.member, held.number, held.name),
                number,
                is_final: held.is_final,
                ty: held.ty,
                has_init: held.has_init,
                kind: held.kind,
            })),
        }
    }

    /// Puts a local behind the others.
    pub fn push(&mut self, held: Held<'a>) -> Result<(), AllocError>
        requires { IsKept self.old }
        ensures kept { OnOk result (IsKept self.new) }
        ensures beside { OnOk result (AreBeside self.old self.new) }
        ensures locals { OnOk result
            (locals_in self.new ≡ locals_in self.old ++ held_of held.entry ∷ []) }
        ensures own { OnOk result (self.new.own ≡ self.old.own) }
    {
        let image = self.image_of(&held)?;
        put_depth(&self.numbers, self.renamed.len(), &mut self.depths)?;
        put_image(image, &mut self.renamed)?;
        self.locals.push(held)
    }

    /// How many locals of the new place there are for the first so many of the old one.
    fn images_in(&self, depth: usize) -> usize
        requires kept { IsKept self.now }
        requires deep { IsDeep (mapping_of self.now).locals depth }
        requires within { depth < length (locals_in self.now) }
        ensures { result ≡ length (new_locals (mapping_of self.now) (member_of self.now)
            (take depth (locals_in self.now))) }
    {
        match self.numbers {
            LocalMapping::AllStay => depth,
            LocalMapping::Renumbered(_) => match self.depths.get(depth) {
                None => unreachable!(),
                Some(count) => *count,
            },
        }
    }

    /// Takes away all locals behind the first so many, which there are.
    fn cut(&mut self, depth: usize) -> Result<(), AllocError>
        requires kept { IsKept self.old }
        requires deep { IsDeep (mapping_of self.old).locals depth }
        requires within { depth < length (locals_in self.old) }
        ensures kept { OnOk result (IsKept self.new) }
        ensures beside { OnOk result (AreBeside self.old self.new) }
        ensures locals { OnOk result (locals_in self.new ≡ take depth (locals_in self.old)) }
        ensures own { OnOk result (self.new.own ≡ self.old.own) }
    {
        let images = self.images_in(depth);
        self.depths.truncate(depth);
        self.renamed.truncate(images)?;
        self.locals.truncate(depth)
    }

    /// Takes away all locals behind the first so many.
    pub fn truncate(&mut self, depth: usize) -> Result<(), AllocError>
        requires kept { IsKept self.old }
        requires deep { IsDeep (mapping_of self.old).locals depth }
        ensures kept { OnOk result (IsKept self.new) }
        ensures beside { OnOk result (AreBeside self.old self.new) }
        ensures locals { OnOk result (locals_in self.new ≡ take depth (locals_in self.old)) }
        ensures own { OnOk result (self.new.own ≡ self.old.own) }
    {
        if depth < self.locals.len() {
            self.cut(depth)
        } else {
            Ok(())
        }
    }
}

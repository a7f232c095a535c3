//! The declarations of a program, from its trees.
ghost use Rattle.std.specs.Prelude.{◌≡◌, ◌++◌, [], ◌∷◌, ◌<◌, ◌^◌, length, OnOk, IfOk, Some, map};
ghost use Rattle.std.specs.Prelude.{option_map};
ghost use Rattle.jr_ast.specs.View.{word_of, modifier_of, type_of, param_of, expr_of};
ghost use Rattle.jr_ast.specs.View.{class_of, member_of, members_of, unit_of};
ghost use Rattle.jr_table.specs.DeclaredItems.{word_at, written, words, param_declaration, init_declaration, writes_ctor};
ghost use Rattle.jr_table.specs.DeclaredItems.{member_declarations, class_declarations, members_declarations, declarations_of};
ghost use Rattle.jr_table.specs.DeclaredItems.{class_item, field_item, method_item, ctor_item};
ghost use Rattle.jr_table.specs.DeclaredItems.{classes_declarations, declarations_from};
ghost use Rattle.jr_build_declared.specs.DeclaredView.{text_of, declaration_key_of, declaration_of};
ghost use Rattle.jr_build_declared.specs.Fitting.{begins_by, WordFits, TypeFits, MaybeTypeFits};
ghost use Rattle.jr_build_declared.specs.Fitting.{InitFits, ParamsFit};
ghost use Rattle.jr_build_declared.specs.Fitting.{MemberFits, ClassFits, MembersFit, ClassesFit, UnitsFit};
ghost use Rattle.jr_build_declared.specs.Gathers.{in_file, Gathers};

use crate::declaration_parts::{
    begin, has_ctor, maybe_init, maybe_written, mod_words, param_declarations, word_place,
    written_type,
};
use crate::declarations::{
    DeclaredClass, DeclaredCtor, DeclaredField, DeclaredItem, DeclaredKey, DeclaredKind,
    DeclaredMethod,
};
use jr_ast::{Class, Expr, Ident, Member, MemberKind, Modifier, Param, TypeRef, Unit};
use jr_text::Mark;
use std::alloc::{AllocError, Global};

/// Where what is gathered stands: its file, and the base of its marks.
#[derive(Clone, Copy, Drop)]
struct Within {
    file: u32,
    base: u32,
}

/// Puts a field behind the declarations.
fn push_field<'a, A: Mark>(
    alloc: Global,
    declarations: &mut Vec<DeclaredItem<'a>>,
    at: Within,
    of: &DeclaredKey<'a>,
    modifiers: &[Modifier<A>],
    ty: &'a TypeRef<A>,
    name: &'a Ident<A>,
    init: &Option<Expr<A>>,
) -> Result<(), AllocError>
    requires name { WordFits (begins_by A.span_from) A.fits_at at.base (word_of name.now) }
    requires ty { TypeFits (begins_by A.span_from) A.fits_at at.base (type_of ty.now) }
    requires init { InitFits (begins_by A.span_from) A.fits_at at.base
        (option_map expr_of init.now) }
    ensures { Gathers result declarations.old.items declarations.new.items (in_file at.file (field_item (record {
      at = word_at (begins_by A.span_from) at.base (word_of name.now);
      of = declaration_key_of of.now;
      name = (word_of name.now).text;
      modifiers = words (begins_by A.span_from) (map modifier_of modifiers.now);
      type = written (begins_by A.span_from) at.base (type_of ty.now);
      init = option_map (init_declaration (begins_by A.span_from) at.base) (option_map expr_of init.now);
    }) ∷ [])) }
{
    let modifiers = mod_words(alloc, modifiers)?;
    declarations.push(DeclaredItem {
        file: at.file,
        item: DeclaredKind::Field(DeclaredField {
            at: word_place(name, at.base),
            of: *of,
            name: &name.name,
            modifiers,
            written: written_type(ty, at.base),
            init: maybe_init(init, at.base),
        }),
    })?;
    Ok(())
}

/// Puts a method behind the declarations.
fn push_method<'a, A: Mark>(
    alloc: Global,
    declarations: &mut Vec<DeclaredItem<'a>>,
    at: Within,
    of: &DeclaredKey<'a>,
    modifiers: &[Modifier<A>],
    ret: &'a Option<TypeRef<A>>,
    name: &'a Ident<A>,
    params: &'a [Param<A>],
) -> Result<(), AllocError>
    requires name { WordFits (begins_by A.span_from) A.fits_at at.base (word_of name.now) }
    requires ret { MaybeTypeFits (begins_by A.span_from) A.fits_at at.base
        (option_map type_of ret.now) }
    requires params { ParamsFit (begins_by A.span_from) A.fits_at at.base
        (map param_of params.now) }
    ensures { Gathers result declarations.old.items declarations.new.items (in_file at.file (method_item (record {
      at = word_at (begins_by A.span_from) at.base (word_of name.now);
      of = declaration_key_of of.now;
      name = (word_of name.now).text;
      modifiers = words (begins_by A.span_from) (map modifier_of modifiers.now);
      result = option_map (written (begins_by A.span_from) at.base) (option_map type_of ret.now);
      params = map (param_declaration (begins_by A.span_from) at.base) (map param_of params.now);
    }) ∷ [])) }
{
    let modifiers = mod_words(alloc, modifiers)?;
    let params = param_declarations(alloc, params, at.base)?;
    declarations.push(DeclaredItem {
        file: at.file,
        item: DeclaredKind::Method(DeclaredMethod {
            at: word_place(name, at.base),
            of: *of,
            name: &name.name,
            modifiers,
            result: maybe_written(ret, at.base),
            params,
        }),
    })?;
    Ok(())
}

/// Puts a constructor behind the declarations.
fn push_ctor<'a, A: Mark>(
    alloc: Global,
    declarations: &mut Vec<DeclaredItem<'a>>,
    at: Within,
    of: &DeclaredKey<'a>,
    modifiers: &[Modifier<A>],
    name: &'a Ident<A>,
    params: &'a [Param<A>],
) -> Result<(), AllocError>
    requires name { WordFits (begins_by A.span_from) A.fits_at at.base (word_of name.now) }
    requires params { ParamsFit (begins_by A.span_from) A.fits_at at.base
        (map param_of params.now) }
    ensures { Gathers result declarations.old.items declarations.new.items (in_file at.file (ctor_item (record {
      at = word_at (begins_by A.span_from) at.base (word_of name.now);
      of = declaration_key_of of.now;
      modifiers = words (begins_by A.span_from) (map modifier_of modifiers.now);
      params = map (param_declaration (begins_by A.span_from) at.base) (map param_of params.now);
    }) ∷ [])) }
{
    let modifiers = mod_words(alloc, modifiers)?;
    let params = param_declarations(alloc, params, at.base)?;
    declarations.push(DeclaredItem {
        file: at.file,
        item: DeclaredKind::Ctor(DeclaredCtor {
            at: word_place(name, at.base),
            of: *of,
            modifiers,
            params,
        }),
    })?;
    Ok(())
}

/// Puts the head of a class behind the declarations.
fn push_head<'a, A: Mark>(
    alloc: Global,
    declarations: &mut Vec<DeclaredItem<'a>>,
    at: Within,
    key: &DeclaredKey<'a>,
    modifiers: &[Modifier<A>],
    name: &'a Ident<A>,
    parent: &'a Option<TypeRef<A>>,
    members: &[Member<A>],
) -> Result<(), AllocError>
    requires name { WordFits (begins_by A.span_from) A.fits_at at.base (word_of name.now) }
    requires parent { MaybeTypeFits (begins_by A.span_from) A.fits_at at.base
        (option_map type_of parent.now) }
    ensures { Gathers result declarations.old.items declarations.new.items (in_file at.file (class_item (record {
      at = word_at (begins_by A.span_from) at.base (word_of name.now);
      key = declaration_key_of key.now;
      modifiers = words (begins_by A.span_from) (map modifier_of modifiers.now);
      parent = option_map (written (begins_by A.span_from) at.base)
          (option_map type_of parent.now);
      has_ctor = writes_ctor (begins_by A.span_from) (members_of members.now);
    }) ∷ [])) }
{
    let modifiers = mod_words(alloc, modifiers)?;
    declarations.push(DeclaredItem {
        file: at.file,
        item: DeclaredKind::Class(DeclaredClass {
            at: word_place(name, at.base),
            key: *key,
            modifiers,
            parent: maybe_written(parent, at.base),
            has_ctor: has_ctor(members),
        }),
    })?;
    Ok(())
}

/// Puts the declarations of a member behind the others.
#[cycle(gathering)]
#[tactic(auto, unfolding(jr_ast::specs::View::member_kind, crate::specs::Fitting::MemberFits))]
fn member<'a, A: Mark>(
    alloc: Global,
    declarations: &mut Vec<DeclaredItem<'a>>,
    at: Within,
    of: &DeclaredKey<'a>,
    member: &'a Member<A>,
) -> Result<(), AllocError>
    requires { MemberFits (begins_by A.span_from) A.fits_at at.base (member_of member.now) }
    ensures { Gathers result declarations.old.items declarations.new.items (in_file at.file
        (member_declarations (begins_by A.span_from) at.base (declaration_key_of of.now)
        (member_of member.now))) }
{
    let here = Within {
        file: at.file,
        base: begin(&member.mark, at.base),
    };
    match &member.kind {
        MemberKind::Field {
            modifiers,
            ty,
            name,
            init,
        } => push_field(alloc, declarations, here, of, modifiers, ty, name, init),
        MemberKind::Method {
            modifiers,
            ret,
            name,
            params,
            ..
        } => push_method(alloc, declarations, here, of, modifiers, ret, name, params),
        MemberKind::Ctor {
            modifiers,
            name,
            params,
            ..
        } => push_ctor(alloc, declarations, here, of, modifiers, name, params),
        MemberKind::Inner(inner) => class(alloc, declarations, here, &Some(of.name), inner),
    }
}

/// Puts the declarations of a class and of its members behind the others.
#[cycle(gathering)]
#[tactic(auto, unfolding(crate::specs::Fitting::ClassFits, jr_table::specs::DeclaredItems::class_declarations))]
fn class<'a, A: Mark>(
    alloc: Global,
    declarations: &mut Vec<DeclaredItem<'a>>,
    at: Within,
    outer: &Option<&'a str>,
    class: &'a Class<A>,
) -> Result<(), AllocError>
    requires { ClassFits (begins_by A.span_from) A.fits_at at.base (class_of class.now) }
    ensures { Gathers result declarations.old.items declarations.new.items (in_file at.file
        (class_declarations (begins_by A.span_from) at.base (option_map text_of outer.now)
        (class_of class.now))) }
{
    let here = Within {
        file: at.file,
        base: begin(&class.mark, at.base),
    };
    let key = DeclaredKey {
        outer: *outer,
        name: class.name.name.as_str(),
    };
    push_head(
        alloc,
        declarations,
        here,
        &key,
        &class.modifiers,
        &class.name,
        &class.parent,
        &class.members,
    )?;
    members(alloc, declarations, here, &key, &class.members)
}

/// Puts the declarations of members behind the others.
#[cycle(gathering)]
fn members<'a, A: Mark>(
    alloc: Global,
    declarations: &mut Vec<DeclaredItem<'a>>,
    at: Within,
    of: &DeclaredKey<'a>,
    members: &'a [Member<A>],
) -> Result<(), AllocError>
    requires { MembersFit (begins_by A.span_from) A.fits_at at.base (members_of members.now) }
    ensures { Gathers result declarations.old.items declarations.new.items (in_file at.file
        (members_declarations (begins_by A.span_from) at.base (declaration_key_of of.now)
        (members_of members.now))) }
{
    for part in members {
        member(alloc, declarations, at, of, part)?;
    }
    Ok(())
}

/// Puts the declarations of a file's classes behind the others.
fn classes<'a, A: Mark>(
    alloc: Global,
    declarations: &mut Vec<DeclaredItem<'a>>,
    at: Within,
    classes: &'a [Class<A>],
) -> Result<(), AllocError>
    requires { ClassesFit (begins_by A.span_from) A.fits_at at.base (map class_of classes.now) }
    ensures { Gathers result declarations.old.items declarations.new.items (in_file at.file
        (classes_declarations (begins_by A.span_from) at.base (map class_of classes.now))) }
{
    for part in classes {
        class(alloc, declarations, at, &None, part)?;
    }
    Ok(())
}

/// The declarations of a program.
pub fn program_declarations<'a, A: Mark>(
    alloc: Global,
    units: &'a [Unit<A>],
) -> Result<Vec<DeclaredItem<'a>>, AllocError>
    requires fits { UnitsFit (begins_by A.span_from) A.fits_at (map unit_of units.now) }
    requires few { length units.now < 2 ^ 32 }
    ensures { IfOk result (λ declarations. map declaration_of declarations.items
        ≡ declarations_of (begins_by A.span_from) (map unit_of units.now)) }
{
    let mut declarations = Vec::new(alloc);
    for (file, unit) in units.iter().enumerate() {
        let at = Within {
            file: file as u32,
            base: begin(&unit.mark, 0),
        };
        classes(alloc, &mut declarations, at, &unit.classes)?;
    }
    Ok(declarations)
}

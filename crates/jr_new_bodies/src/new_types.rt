//! The types of what stands now in the places of expressions: where a local is gone, something else
//! stands at its reads.
ghost use Rattle.std.specs.Prelude.{◌≡◌, ◌++◌, ◌∷◌, [], IfOk, OnOk, Some, option_map};
ghost use Rattle.jr_ast.specs.View.{expr_of, exprs_of};
ghost use Rattle.jr_table.specs.Keys as keys;
ghost use Rattle.jr_table.specs.TypeView.{class_key_of, ty_of};
ghost use Rattle.jr_new_words.specs.Mappings as pure;
ghost use Rattle.jr_new_words.specs.MappingView.{gone_of};
ghost use Rattle.jr_new_bodies.specs.Known.{mapping_of, context_of, IsKnown};
ghost use Rattle.jr_new_bodies.specs.MeaningView as meaning;
ghost use Rattle.jr_new_bodies.specs.MeaningView.{types_of};

use crate::here::Here;
use jr_ast::{Expr, ExprKind, Name};
use jr_new_words::{GoneLocal, class_type_to, type_to, types_to};
use jr_table::{ClassKey, Ty, Tys};
use std::alloc::{AllocError, Global};

/// What stands in the parentheses, or what is assigned.
#[tactic(auto, unfolding(jr_ast::specs::View::expr_kind))]
fn within<A>(of: &Expr<A>) -> Option<&Expr<A>>
    ensures { option_map (λ e. expr_of e.now) result ≡ meaning.within (expr_of of.now) }
{
    match &of.kind {
        ExprKind::Int(_) => None,
        ExprKind::Bool(_) => None,
        ExprKind::Null => None,
        ExprKind::Text(_) => None,
        ExprKind::Simple(_) => None,
        ExprKind::Field(_, _) => None,
        ExprKind::SuperField(_) => None,
        ExprKind::This => None,
        ExprKind::ClassLit(_) => None,
        ExprKind::Call(_, _, _) => None,
        ExprKind::SuperCall(_, _) => None,
        ExprKind::New(_, _) => None,
        ExprKind::Paren(part) => Some(part),
        ExprKind::Cast(_, _) => None,
        ExprKind::Unary(_, _) => None,
        ExprKind::Bump(_, _) => None,
        ExprKind::Binary(_, _, _) => None,
        ExprKind::Assign(to, _) => Some(to),
        ExprKind::Compound(_, _, _) => None,
    }
}

/// A simple name.
#[tactic(auto, unfolding(jr_ast::specs::View::expr_kind))]
fn simple_name<A>(of: &Expr<A>) -> Option<&Name>
    ensures { option_map (λ n. n.now) result ≡ meaning.simple_name (expr_of of.now) }
{
    match &of.kind {
        ExprKind::Int(_) => None,
        ExprKind::Bool(_) => None,
        ExprKind::Null => None,
        ExprKind::Text(_) => None,
        ExprKind::Simple(name) => Some(&name.name),
        ExprKind::Field(_, _) => None,
        ExprKind::SuperField(_) => None,
        ExprKind::This => None,
        ExprKind::ClassLit(_) => None,
        ExprKind::Call(_, _, _) => None,
        ExprKind::SuperCall(_, _) => None,
        ExprKind::New(_, _) => None,
        ExprKind::Paren(_) => None,
        ExprKind::Cast(_, _) => None,
        ExprKind::Unary(_, _) => None,
        ExprKind::Bump(_, _) => None,
        ExprKind::Binary(_, _, _) => None,
        ExprKind::Assign(_, _) => None,
        ExprKind::Compound(_, _, _) => None,
    }
}

/// The name that an expression reads, in parentheses or not; an assignment has the type of what it
/// assigns (JLS 15.8.5, 15.26).
fn read_name<A>(of: &Expr<A>) -> Option<&Name>
    ensures { option_map (λ n. n.now) result ≡ pure.read_name (expr_of of.now) }
{
    let mut of = of;
    loop {
        match within(of) {
            None => return simple_name(of),
            Some(part) => of = part,
        }
    }
}

/// The old type of what stands at an expression, if it reads the local that is gone.
fn type_read<'a, A>(here: &Here<'a>, gone: &GoneLocal<'a>, of: &Expr<A>) -> Option<&'a Ty>
    requires known { IsKnown here.now }
    ensures { option_map (λ t. ty_of t.now) result ≡ pure.type_read (gone_of gone.now)
        (context_of here.now) (pure.read_name (expr_of of.now)) }
{
    match read_name(of) {
        None => None,
        Some(name) => here.scopes.type_read(gone, name),
    }
}

/// The type of what stands in the place of a value of the class, beside a local that is gone.
fn class_where<A>(
    here: &Here<'_>,
    gone: &GoneLocal<'_>,
    of: &Expr<A>,
    class: &ClassKey,
) -> Result<Ty, AllocError>
    requires known { IsKnown here.now }
    ensures { IfOk result (λ t. ty_of t ≡ pure.type_to (mapping_of here.now) (pure.type_where
        (Some (gone_of gone.now)) (context_of here.now) (expr_of of.now)
        (keys.class (class_key_of class.now)))) }
{
    match type_read(here, gone, of) {
        None => class_type_to(&here.scopes.programs.keys, class),
        Some(ty) => type_to(&here.scopes.programs.keys, ty),
    }
}

/// The type of what stands now in the place of a value of the class.
pub(crate) fn class_now<A>(
    here: &Here<'_>,
    of: &Expr<A>,
    class: &ClassKey,
) -> Result<Ty, AllocError>
    requires known { IsKnown here.now }
    ensures { IfOk result (λ t. ty_of t ≡ pure.type_now (mapping_of here.now)
        (context_of here.now) (expr_of of.now) (keys.class (class_key_of class.now))) }
{
    match here.scopes.gone() {
        None => class_type_to(&here.scopes.programs.keys, class),
        Some(gone) => class_where(here, gone, of, class),
    }
}

/// The old type of what stands in the place of an expression that had this type.
fn type_where<A>(
    here: &Here<'_>,
    gone: &GoneLocal<'_>,
    of: &Expr<A>,
    ty: &Ty,
) -> Result<Ty, AllocError>
    requires known { IsKnown here.now }
    ensures { IfOk result (λ t. ty_of t ≡ pure.type_where (Some (gone_of gone.now))
        (context_of here.now) (expr_of of.now) (ty_of ty.now)) }
{
    match type_read(here, gone, of) {
        None => ty.copy(),
        Some(then) => then.copy(),
    }
}

/// Puts that type behind the others.
fn put_type<A>(
    here: &Here<'_>,
    gone: &GoneLocal<'_>,
    of: &Expr<A>,
    ty: &Ty,
    types: &mut Vec<Ty>,
) -> Result<(), AllocError>
    requires known { IsKnown here.now }
    ensures { OnOk result (types_of types.new.items ≡ types_of types.old.items
        ++ pure.type_where (Some (gone_of gone.now)) (context_of here.now) (expr_of of.now)
        (ty_of ty.now) ∷ []) }
{
    let then = type_where(here, gone, of, ty)?;
    types.push(then)?;
    Ok(())
}

/// Those of what stands in the places of arguments that had these types.
fn types_where<A>(
    alloc: Global,
    here: &Here<'_>,
    gone: &GoneLocal<'_>,
    parts: &[Expr<A>],
    types: &[Ty],
) -> Result<Vec<Ty>, AllocError>
    requires known { IsKnown here.now }
    ensures { IfOk result (λ v. types_of v.items ≡ pure.types_where (Some (gone_of gone.now))
        (context_of here.now) (exprs_of parts.now) (types_of types.now)) }
{
    let mut then = Vec::new(alloc);
    let mut rest = types;
    for part in parts {
        let Some((ty, others)) = rest.split_first() else {
            return Ok(then);
        };
        put_type(here, gone, part, ty, &mut then)?;
        rest = others;
    }
    Ok(then)
}

/// The types of what stands now in the places of arguments, beside a local that is gone.
fn images_where<A>(
    alloc: Global,
    here: &Here<'_>,
    gone: &GoneLocal<'_>,
    parts: &[Expr<A>],
    types: &Tys,
) -> Result<Tys, AllocError>
    requires known { IsKnown here.now }
    ensures { IfOk result (λ us. us ≡ pure.types_to (mapping_of here.now) (pure.types_where
        (Some (gone_of gone.now)) (context_of here.now) (exprs_of parts.now) types.now)) }
{
    let types = types_where(alloc, here, gone, parts, types.as_slice())?;
    let then = Tys::from_vec(types)?;
    types_to(alloc, &here.scopes.programs.keys, &then)
}

/// The types of what stands now in the places of arguments that had these types.
pub(crate) fn types_now<A>(
    alloc: Global,
    here: &Here<'_>,
    parts: &[Expr<A>],
    types: &Tys,
) -> Result<Tys, AllocError>
    requires known { IsKnown here.now }
    ensures { IfOk result (λ us. us ≡ pure.types_now (mapping_of here.now) (context_of here.now)
        (exprs_of parts.now) types.now) }
{
    match here.scopes.gone() {
        None => types_to(alloc, &here.scopes.programs.keys, types),
        Some(gone) => images_where(alloc, here, gone, parts, types),
    }
}

//! The walk over a member (JLS 8).
ghost use Rattle.std.specs.Prelude.{◌≡◌, ◌+◌, [], suc, ℕ, IfOk, OnOk, length, map, option_map};
ghost use Rattle.jr_ast.specs.View.{args_of, expr_of, member_of, modifier_of, param_of, stmts_of, type_of};
ghost use Rattle.jr_bind_expr.specs.Fits.{FitsExp, FitsMaybe, FitsStmts};
ghost use Rattle.jr_runs.specs.MemberTranslation as runs;
ghost use Rattle.jr_cover.specs.MemberTranslation as cover;
ghost use Rattle.jr_table.specs.Keys as keys;
ghost use Rattle.jr_table.specs.Decls as decls;
ghost use Rattle.jr_cfg.specs.MemberRoutes.{FitsArgs, FitsSites, IsKeyOf, NumbersMember};
ghost use Rattle.jr_cfg.specs.MemberRoutes as route;
ghost use Rattle.jr_expr_sites.specs.Routes.{Walked, begins_by, ends_by};
ghost use Rattle.jr_cfg.specs.StatementRoutes.{NumberedAll, WalkedSo};
ghost use Rattle.jr_cfg.specs.StatementRoutes as list;
ghost use Rattle.jr_expr_sites.specs.StepView.{given};

use crate::statements::stmts;
use jr_ast::{Expr, Ident, Member, MemberKind, ModWord, Modifier, Param, Path, Stmt, TypeRef};
use jr_expr_sites::{Here, Site, Step, What, exprs, operand, put, put_nothing, put_row, put_site};
use jr_table::{Facts, MemberKey};
use jr_text::Mark;
use std::alloc::{AllocError, Global};

/// Where the parts of one kind stand in a member: the number of the first of them, and that of the
/// first local that they declare.
#[derive(Clone, Copy, Drop)]
struct Front {
    step: u32,
    number: u32,
}

fn is_static_word(word: ModWord) -> bool
    ensures { result ≡ cover.is_static_word word }
{
    match word {
        ModWord::Static => true,
        _ => false,
    }
}

fn is_static<A>(modifiers: &[Modifier<A>]) -> bool
    ensures { result ≡ cover.is_static (map modifier_of modifiers.now) }
{
    for modifier in modifiers {
        if is_static_word(modifier.word) {
            return true;
        }
    }
    false
}

fn is_synchronized_word(word: ModWord) -> bool
    ensures { result ≡ runs.is_synchronized_word word }
{
    match word {
        ModWord::Synchronized => true,
        _ => false,
    }
}

/// Whether a method with these modifiers runs in a monitor (JLS 8.4.3.6).
pub fn is_synchronized<A>(modifiers: &[Modifier<A>]) -> bool
    ensures { result ≡ runs.is_synchronized (map modifier_of modifiers.now) }
{
    for modifier in modifiers {
        if is_synchronized_word(modifier.word) {
            return true;
        }
    }
    false
}

/// The path of a member: it has no steps.
fn top(alloc: Global) -> Path
    ensures { result.steps.items ≡ [] }
{
    Path {
        steps: Vec::new(alloc),
    }
}

/// A sum as a number of parts. More parts than numbers don't fit any memory.
fn behind(number: u32, count: usize) -> Result<u32, AllocError>
    ensures { IfOk result (λ n. n ≡ number + count) }
{
    match u32::try_from(count) {
        Err(_) => Err(AllocError),
        Ok(count) => match number.checked_add(count) {
            None => Err(AllocError),
            Some(sum) => Ok(sum),
        },
    }
}

/// Where the parts stand that come behind modifiers, `words` other parts, and parameters.
fn front_of(modifiers: usize, words: u32, params: usize) -> Result<Front, AllocError>
    ensures step { IfOk result (λ f. f.step ≡ words + modifiers + params) }
    ensures number { IfOk result (λ f. f.number ≡ params) }
{
    let names = behind(words, modifiers)?;
    let step = behind(names, params)?;
    let number = behind(0, params)?;
    Ok(Front { step, number })
}

/// A field's initializer, its part of number `step`, and of an instance field's the store (JLS
/// 8.3.2).
fn initializer<'a, F: Facts, A: Mark>(
    alloc: Global,
    here: &Here<'a, F>,
    step: u32,
    is_static: bool,
    name: &Ident<A>,
    init: &Expr<A>,
    out: &mut Vec<Step<'a>>,
) -> Result<(), AllocError>
    requires fits { FitsExp (begins_by A.span_from) A.fits_at here.now.start (expr_of init.now) }
    requires fits_name { A.fits_at name.now.mark here.now.start }
    ensures { (k : keys.FieldKey) → (given F.decls F.types here.now).member ≡ decls.field k
        → OnOk result (Walked (given F.decls F.types here.now)
        (route.initializer A.span_from is_static step here.now.start
        (begins_by A.span_from name.now.mark here.now.start) k (expr_of init.now))
        out.old.items out.new.items) }
{
    let path = top(alloc);
    operand(alloc, here, &path, step, here.start, init, out)?;
    if is_static {
        return Ok(());
    }
    match here.member {
        MemberKey::Field(key) => {
            put_site(name.mark.span(here.start).from, What::Stores(key), out)?;
            put_row(out)
        }
        MemberKey::Head(_) => Ok(()),
        MemberKey::Method(_) => Ok(()),
        MemberKey::Ctor(_) => Ok(()),
    }
}

/// A field. Without an initializer it has no sites.
fn field<'a, F: Facts, A: Mark>(
    alloc: Global,
    here: &Here<'a, F>,
    modifiers: &[Modifier<A>],
    name: &Ident<A>,
    init: &Option<Expr<A>>,
    out: &mut Vec<Step<'a>>,
) -> Result<(), AllocError>
    requires fits { FitsMaybe (begins_by A.span_from) A.fits_at here.now.start
        (option_map expr_of init.now) }
    requires fits_name { A.fits_at name.now.mark here.now.start }
    ensures { (k : keys.FieldKey) → (given F.decls F.types here.now).member ≡ decls.field k
        → OnOk result (Walked (given F.decls F.types here.now)
        (route.field A.span_from (map modifier_of modifiers.now) here.now.start
        (begins_by A.span_from name.now.mark here.now.start) k (option_map expr_of init.now))
        out.old.items out.new.items) }
{
    match init {
        None => put_nothing(out),
        Some(init) => {
            let step = behind(2, modifiers.len())?;
            initializer(alloc, here, step, is_static(modifiers), name, init, out)
        }
    }
}

/// The statements of a member.
fn body_of<'a, F: Facts, A: Mark>(
    alloc: Global,
    here: &Here<'a, F>,
    front: Front,
    body: &[Stmt<A>],
    out: &mut Vec<Step<'a>>,
) -> Result<(), AllocError>
    requires fits { FitsStmts (begins_by A.span_from) A.fits_at here.now.start
        (stmts_of body.now) }
    ensures { OnOk result (WalkedSo (given F.decls F.types here.now)
        (NumberedAll A.span_from front.number [] front.step here.now.start (stmts_of body.now))
        (list.stmts A.span_from [] front.step here.now.start (stmts_of body.now))
        out.old.items out.new.items) }
{
    let path = top(alloc);
    stmts(
        alloc,
        here,
        &path,
        front.step,
        here.start,
        front.number,
        body,
        out,
    )?;
    Ok(())
}

/// The statements of a method; if it is synchronized, within a monitor that is entered at the name's byte
/// `word` and exited at the byte `last` (JLS 8.4.3.6).
fn locked_body<'a, F: Facts, A: Mark>(
    alloc: Global,
    here: &Here<'a, F>,
    is_locked: bool,
    word: u32,
    last: u32,
    front: Front,
    body: &[Stmt<A>],
    out: &mut Vec<Step<'a>>,
) -> Result<(), AllocError>
    requires fits { FitsStmts (begins_by A.span_from) A.fits_at here.now.start
        (stmts_of body.now) }
    ensures { OnOk result (WalkedSo (given F.decls F.types here.now)
        (NumberedAll A.span_from front.number [] front.step here.now.start (stmts_of body.now))
        (route.method A.span_from is_locked front.step here.now.start word last
        (stmts_of body.now)) out.old.items out.new.items) }
{
    if !is_locked {
        return body_of(alloc, here, front, body, out);
    }
    put(
        Step::Opens(Site {
            at: word,
            what: What::Enters,
        }),
        out,
    )?;
    body_of(alloc, here, front, body, out)?;
    put(
        Step::Closes(Site {
            at: last,
            what: What::Exits,
        }),
        out,
    )
}

/// How many of a method's parts are its result and its name.
fn words_of<A: Mark>(result_type: &Option<TypeRef<A>>) -> u32
    ensures { result ≡ route.words A.span_from (option_map type_of result_type.now) }
{
    match result_type {
        None => 1,
        Some(_) => 2,
    }
}

/// Where the superclass's constructor is called: at the byte of a written `super`, or else at the
/// byte of the constructor's name.
fn called_at<A>(args: &Option<Vec<Expr<A>>>, super_at: u32, word: u32) -> u32
    ensures { result ≡ route.call_place (args_of args.now) super_at word }
{
    match args {
        None => word,
        Some(_) => super_at,
    }
}

/// How many arguments a written `super(..)` has.
fn count_args<A: Mark>(args: &Option<Vec<Expr<A>>>) -> usize
    ensures { result ≡ route.arguments A.span_from (args_of args.now) }
{
    match args {
        None => 0,
        Some(args) => args.len(),
    }
}

/// The arguments of a written `super(..)`.
fn super_args<'a, F: Facts, A: Mark>(
    alloc: Global,
    here: &Here<'a, F>,
    front: u32,
    args: &Option<Vec<Expr<A>>>,
    out: &mut Vec<Step<'a>>,
) -> Result<(), AllocError>
    requires fits { FitsArgs A.span_from A.fits_at here.now.start (args_of args.now) }
    ensures { OnOk result (Walked (given F.decls F.types here.now)
        (route.super_args A.span_from front here.now.start (args_of args.now))
        out.old.items out.new.items) }
{
    match args {
        None => put_nothing(out),
        Some(args) => {
            let path = top(alloc);
            exprs(alloc, here, &path, front, here.start, args, out)
        }
    }
}

/// The arguments of `super(..)`, the call at the byte `called`, and the body (JLS 8.8.7). `front`
/// tells where the arguments stand.
fn called_body<'a, F: Facts, A: Mark>(
    alloc: Global,
    here: &Here<'a, F>,
    called: u32,
    front: Front,
    args: &Option<Vec<Expr<A>>>,
    body: &[Stmt<A>],
    out: &mut Vec<Step<'a>>,
) -> Result<(), AllocError>
    requires fits { FitsStmts (begins_by A.span_from) A.fits_at here.now.start
        (stmts_of body.now) }
    requires fits_args { FitsArgs A.span_from A.fits_at here.now.start (args_of args.now) }
    ensures { OnOk result (WalkedSo (given F.decls F.types here.now)
        (NumberedAll A.span_from front.number [] (front.step + route.arguments A.span_from (args_of args.now))
        here.now.start (stmts_of body.now))
        (route.constructor A.span_from front.step here.now.start called (args_of args.now)
        (stmts_of body.now)) out.old.items out.new.items) }
{
    super_args(alloc, here, front.step, args, out)?;
    put_site(called, What::Calls, out)?;
    put_row(out)?;
    let step = behind(front.step, count_args(args))?;
    let number = front.number;
    body_of(alloc, here, Front { step, number }, body, out)?;
    put_row(out)
}

/// The body of a method whose last byte is at `last`.
fn method<'a, F: Facts, A: Mark>(
    alloc: Global,
    here: &Here<'a, F>,
    last: u32,
    modifiers: &[Modifier<A>],
    result_type: &Option<TypeRef<A>>,
    name: &Ident<A>,
    params: &[Param<A>],
    body: &[Stmt<A>],
    out: &mut Vec<Step<'a>>,
) -> Result<(), AllocError>
    requires fits { FitsStmts (begins_by A.span_from) A.fits_at here.now.start
        (stmts_of body.now) }
    requires fits_name { A.fits_at name.now.mark here.now.start }
    ensures { OnOk result (WalkedSo (given F.decls F.types here.now)
        (NumberedAll A.span_from (length params.now) [] (route.method_front A.span_from
        (map modifier_of modifiers.now) (option_map type_of result_type.now)
        (map param_of params.now)) here.now.start (stmts_of body.now))
        (route.method A.span_from (runs.is_synchronized (map modifier_of modifiers.now))
        (route.method_front A.span_from (map modifier_of modifiers.now)
        (option_map type_of result_type.now) (map param_of params.now)) here.now.start
        (begins_by A.span_from name.now.mark here.now.start) last (stmts_of body.now))
        out.old.items out.new.items) }
{
    let front = front_of(modifiers.len(), words_of(result_type), params.len())?;
    let is_locked = is_synchronized(modifiers);
    let word = name.mark.span(here.start).from;
    locked_body(alloc, here, is_locked, word, last, front, body, out)
}

/// The body of a constructor; a written `super(..)` of it stands at `super_at`.
fn constructor<'a, F: Facts, A: Mark>(
    alloc: Global,
    here: &Here<'a, F>,
    super_at: u32,
    modifiers: &[Modifier<A>],
    name: &Ident<A>,
    params: &[Param<A>],
    args: &Option<Vec<Expr<A>>>,
    body: &[Stmt<A>],
    out: &mut Vec<Step<'a>>,
) -> Result<(), AllocError>
    requires fits { FitsStmts (begins_by A.span_from) A.fits_at here.now.start
        (stmts_of body.now) }
    requires fits_name { A.fits_at name.now.mark here.now.start }
    requires fits_args { FitsArgs A.span_from A.fits_at here.now.start (args_of args.now) }
    ensures { OnOk result (WalkedSo (given F.decls F.types here.now)
        (NumberedAll A.span_from (length params.now) []
        (route.constructor_front A.span_from (map modifier_of modifiers.now)
        (map param_of params.now) + route.arguments A.span_from (args_of args.now))
        here.now.start (stmts_of body.now))
        (route.constructor A.span_from (route.constructor_front A.span_from
        (map modifier_of modifiers.now) (map param_of params.now)) here.now.start
        (route.call_place (args_of args.now) super_at
        (begins_by A.span_from name.now.mark here.now.start)) (args_of args.now)
        (stmts_of body.now)) out.old.items out.new.items) }
{
    let front = front_of(modifiers.len(), 1, params.len())?;
    let called = called_at(args, super_at, name.mark.span(here.start).from);
    called_body(alloc, here, called, front, args, body, out)
}

/// Puts the steps of a member whose parent begins at `base`; a written `super(..)` of it stands at
/// `super_at`. The only fault is want of memory.
pub(crate) fn member<'a, F: Facts, A: Mark>(
    alloc: Global,
    here: &Here<'a, F>,
    base: u32,
    super_at: u32,
    member: &Member<A>,
    out: &mut Vec<Step<'a>>,
) -> Result<(), AllocError>
    requires fits { FitsSites A.span_from A.fits_at base (member_of member.now) }
    requires start { here.now.start ≡ begins_by A.span_from member.now.mark base }
    ensures { (k : keys.FieldKey)
        → IsKeyOf (given F.decls F.types here.now).member k (member_of member.now)
        → OnOk result (WalkedSo (given F.decls F.types here.now)
        (NumbersMember A.span_from base (member_of member.now))
        (route.member A.span_from super_at base k (member_of member.now))
        out.old.items out.new.items) }
{
    match &member.kind {
        MemberKind::Field {
            modifiers,
            ty: _,
            name,
            init,
        } => field(alloc, here, modifiers, name, init, out),
        MemberKind::Method {
            modifiers,
            ret,
            name,
            params,
            body,
        } => {
            let last = member.mark.span(base).to.saturating_sub(1);
            method(alloc, here, last, modifiers, ret, name, params, body, out)
        }
        MemberKind::Ctor {
            modifiers,
            name,
            params,
            parent_args,
            body,
        } => constructor(
            alloc,
            here,
            super_at,
            modifiers,
            name,
            params,
            parent_args,
            body,
            out,
        ),
        MemberKind::Inner(_) => put_nothing(out),
    }
}
